// The register behind a C interface: a call that answers it, one that tells the leaders after its first cards and one that tells those of
// a day, whose result and two farthest cards are words; one that tells those of the year, with two words more for their days; three that
// edit it in its buffer, and two that read it from comma lines and write it as such, each with one word beside its result; one that tells
// a card's likely scenario, by three words; and one that tells whether a stored answer is old.
#![tactic(auto)]

ghost use Rattle.std.specs.Prelude.{◌≡◌, length};
ghost use Rattle.card.specs.declared.Class.TheVariants.{Toxic, Flammable};
ghost use Rattle.cards.specs.Register.{outcome_of, buffer_of};
ghost use Rattle.prefix.specs.Prefix.{prefix_of};
ghost use Rattle.by_day.specs.Day.{day_of};
ghost use Rattle.by_day.specs.Year.{leaders_told, year_of};
ghost use Rattle.edits.specs.Edits.{add, replace, withdraw, edit_of, buffer_after};
ghost use Rattle.comma.specs.Text.{reading_of, read_into};
ghost use Rattle.write_lines.specs.Writing.{writing_of, write_into};
ghost use Rattle.words.specs.Words.{code_of, word_after, day_after, conversion_code, conversion_at, flag_of};
ghost use Rattle.encode.specs.Bytes.{is_old};
ghost use Rattle.likely_scenario.specs.LikelyScenario.{likely_of};
ghost use Rattle.likely_words.specs.LikelyWords.{likely_code, table_after, found_after, hundredths_after};

// Answers a register into a lent buffer. On acceptance 0 is returned and the two words are set; on a refusal its word is
// returned, and neither a word nor a byte changes.
#[unsafe(no_mangle)]
pub extern "C" fn rings_answer(
    register: &[u8],
    answers: &mut [u8],
    toxic: &mut u64,
    flammable: &mut u64,
) -> u64
    ensures value { result ≡ code_of (outcome_of register.now (length answers.old)) }
    ensures answers_after { answers.new ≡ buffer_of register.now answers.old }
    ensures toxic_after { toxic.new ≡ word_after Toxic (outcome_of register.now (length answers.old)) toxic.old }
    ensures flammable_after { flammable.new ≡ word_after Flammable (outcome_of register.now (length answers.old)) flammable.old }
{
    let outcome = register::fill(register, answers);
    words::tell(outcome, toxic, flammable)
}

// Tells the leaders after the first cards of a register, by the words of the call above. Beyond the count the first cards are all.
#[unsafe(no_mangle)]
pub extern "C" fn rings_leaders_after(
    register: &[u8],
    cards: usize,
    toxic: &mut u64,
    flammable: &mut u64,
) -> u64
    ensures value { result ≡ code_of (prefix_of register.now cards) }
    ensures toxic_after { toxic.new ≡ word_after Toxic (prefix_of register.now cards) toxic.old }
    ensures flammable_after { flammable.new ≡ word_after Flammable (prefix_of register.now cards) flammable.old }
{
    let outcome = prefix::leaders_after(register, cards);
    words::tell(outcome, toxic, flammable)
}

// Tells the farthest cards among those in force on a day, by the words of the calls above.
#[unsafe(no_mangle)]
pub extern "C" fn rings_day(register: &[u8], day: u32, toxic: &mut u64, flammable: &mut u64) -> u64
    ensures value { result ≡ code_of (day_of register.now day) }
    ensures toxic_after { toxic.new ≡ word_after Toxic (day_of register.now day) toxic.old }
    ensures flammable_after { flammable.new ≡ word_after Flammable (day_of register.now day) flammable.old }
{
    let outcome = by_day::farthest_on(register, day);
    words::tell(outcome, toxic, flammable)
}

// Tells the farthest cards of the year, and for each class the earliest day whose farthest card is as far; a day of 0 for a class without
// cards.
#[unsafe(no_mangle)]
pub extern "C" fn rings_year(
    register: &[u8],
    toxic: &mut u64,
    flammable: &mut u64,
    toxic_day: &mut u64,
    flammable_day: &mut u64,
) -> u64
    ensures value { result ≡ code_of (leaders_told (year_of register.now)) }
    ensures toxic_after { toxic.new ≡ word_after Toxic (leaders_told (year_of register.now)) toxic.old }
    ensures flammable_after { flammable.new ≡ word_after Flammable (leaders_told (year_of register.now)) flammable.old }
    ensures toxic_day_after { toxic_day.new ≡ day_after Toxic (year_of register.now) toxic_day.old }
    ensures flammable_day_after { flammable_day.new ≡ day_after Flammable (year_of register.now) flammable_day.old }
{
    let found = by_day::year_of(register);
    words::tell_year(found, toxic, flammable, toxic_day, flammable_day)
}

// Adds a card to the register that a lent buffer starts with.
#[unsafe(no_mangle)]
pub extern "C" fn rings_add(buffer: &mut [u8], card: &[u8; 28], at: &mut u64) -> u64
    ensures value { result ≡ conversion_code (edit_of (add card.now) buffer.old) }
    ensures buffer_after { buffer.new ≡ buffer_after (add card.now) buffer.old }
    ensures at_after { at.new ≡ conversion_at (edit_of (add card.now) buffer.old) }
{
    let edited = edit::add(buffer, card);
    words::tell_edit(edited, at)
}

// Replaces the card of the same number.
#[unsafe(no_mangle)]
pub extern "C" fn rings_replace(buffer: &mut [u8], card: &[u8; 28], at: &mut u64) -> u64
    ensures value { result ≡ conversion_code (edit_of (replace card.now) buffer.old) }
    ensures buffer_after { buffer.new ≡ buffer_after (replace card.now) buffer.old }
    ensures at_after { at.new ≡ conversion_at (edit_of (replace card.now) buffer.old) }
{
    let edited = edit::replace(buffer, card);
    words::tell_edit(edited, at)
}

// Withdraws the card of a number.
#[unsafe(no_mangle)]
pub extern "C" fn rings_withdraw(buffer: &mut [u8], number: u32, at: &mut u64) -> u64
    ensures value { result ≡ conversion_code (edit_of (withdraw number) buffer.old) }
    ensures buffer_after { buffer.new ≡ buffer_after (withdraw number) buffer.old }
    ensures at_after { at.new ≡ conversion_at (edit_of (withdraw number) buffer.old) }
{
    let edited = edit::withdraw(buffer, number);
    words::tell_edit(edited, at)
}

// Reads comma lines into a lent register.
#[unsafe(no_mangle)]
pub extern "C" fn rings_read_lines(text: &[u8], register: &mut [u8], at: &mut u64) -> u64
    ensures value { result ≡ conversion_code (reading_of text.now (length register.old)) }
    ensures register_after { register.new ≡ read_into text.now register.old }
    ensures at_after { at.new ≡ conversion_at (reading_of text.now (length register.old)) }
{
    let converted = read_lines::read(text, register);
    *at = words::conversion_at(converted);
    words::conversion_code(converted)
}

// Writes a register as comma lines into a lent text.
#[unsafe(no_mangle)]
pub extern "C" fn rings_write_lines(register: &[u8], text: &mut [u8], at: &mut u64) -> u64
    ensures value { result ≡ conversion_code (writing_of register.now (length text.old)) }
    ensures text_after { text.new ≡ write_into register.now text.old }
    ensures at_after { at.new ≡ conversion_at (writing_of register.now (length text.old)) }
{
    let converted = write_lines::write(register, text);
    *at = words::conversion_at(converted);
    words::conversion_code(converted)
}

// Tells the likely scenario of a card's 24 bytes at a supplied rate and duration. 0 is returned and the three words are set; on a
// refusal its word is returned, and none of the three changes.
#[unsafe(no_mangle)]
pub extern "C" fn rings_likely(
    card: &[u8; 24],
    rate: u64,
    minutes: u32,
    table: &mut u64,
    found: &mut u64,
    hundredths: &mut f64,
) -> u64
    ensures value { result ≡ likely_code (likely_of card.now rate minutes) }
    ensures table_after { table.new ≡ table_after (likely_of card.now rate minutes) table.old }
    ensures found_after { found.new ≡ found_after (likely_of card.now rate minutes) found.old }
    ensures hundredths_after { hundredths.new ≡ hundredths_after (likely_of card.now rate minutes) hundredths.old }
{
    let answer = likely_scenario::likely_of(card, rate, minutes);
    likely_words::tell_likely(answer, table, found, hundredths)
}

// Tells whether a stored answer, its sixteen bytes, is old: 1 where it was read off Table 13, else 0.
#[unsafe(no_mangle)]
#[tactic(auto, unfolding(words::specs::Words::flag_of))]
pub extern "C" fn rings_is_old(answer: &[u8; 16]) -> u64
    ensures { result ≡ flag_of (is_old answer.now) }
{
    u64::from(encode::is_old(answer))
}
