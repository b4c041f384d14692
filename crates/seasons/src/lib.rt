// The days of the year on which a card is in force.
#![tactic(auto)]

ghost use Rattle.std.specs.Prelude.{◌≡◌};
ghost use Rattle.seasons.specs.Seasons.{season_of, bad_day, bad_season, in_force, first_day};

// The first and the last day on which a card is in force, both included; a first after the last runs across New Year.
#[derive(Clone, Copy)]
pub struct Season {
    pub first: u16,
    pub last: u16,
}

// The season of a card: it stands behind the 24 bytes that every version has, and a card without it is in force all year.
#[tactic(auto, unfolding(crate::specs::Seasons::season_of))]
pub fn season_of(card: &[u8]) -> Season
    ensures { result ≡ season_of card.now }
{
    if card.len() < 28 {
        return Season {
            first: 1,
            last: 366,
        };
    }
    Season {
        first: buffer::two(card, 24),
        last: buffer::two(card, 26),
    }
}

// A day is one of 1 to 366.
#[tactic(auto, unfolding(crate::specs::Seasons::bad_day))]
pub fn bad_day(day: u32) -> bool
    ensures { result ≡ bad_day day }
{
    day == 0 || 366 < day
}

// 21 of a card: one of its days is none of the year.
#[tactic(auto, unfolding(crate::specs::Seasons::bad_season))]
pub fn bad_season(season: Season) -> bool
    ensures { result ≡ bad_season season }
{
    bad_day(season.first as u32) || bad_day(season.last as u32)
}

// Whether a card of this season is in force on a day.
#[tactic(auto, unfolding(crate::specs::Seasons::in_force))]
pub fn in_force(season: Season, day: u32) -> bool
    ensures { result ≡ in_force season day }
{
    let (first, last) = (season.first as u32, season.last as u32);
    if last < first {
        return first <= day || day <= last;
    }
    first <= day && day <= last
}

// The earliest day of the year on which a card of this season is in force: New Year's where it runs across it.
#[tactic(auto, unfolding(crate::specs::Seasons::first_day))]
pub fn first_day(season: Season) -> u16
    ensures { result ≡ first_day season }
{
    if season.last < season.first {
        return 1;
    }
    season.first
}
