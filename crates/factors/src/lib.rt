// The factors that a liquid's pool reads: the column of Exhibit B-4 that its temperature chooses, and what is printed there.
#![tactic(auto)]

ghost use Rattle.std.specs.Prelude.{◌≡◌};
ghost use Rattle.factors.specs.Factors.{column_of, of_cell, factors_of};

use exhibits::{Cell, Liquid};

// The columns of B-4, with 25 °C before them, and the temperatures above them all.
#[derive(Clone, Copy)]
pub enum Column {
    At25,
    At30,
    At35,
    At40,
    At45,
    At50,
    Above,
}

// The closest column of B-4, the higher at a midpoint; above 50.0 °C no column is read. Each column is read from
// the midpoint below it on.
#[tactic(auto, unfolding(crate::specs::Factors::column_of))]
pub fn closest_column(tenths: i16) -> Column
    ensures { result ≡ column_of tenths }
{
    match tenths {
        501.. => Column::Above,
        475.. => Column::At50,
        425.. => Column::At45,
        375.. => Column::At40,
        325.. => Column::At35,
        275.. => Column::At30,
        _ => Column::At25,
    }
}

// What a cell of B-4 makes of a liquid's factors: the liquid factor and the temperature factor, or none where the exhibit has no
// data.
fn of_cell(lfa: u32, lfb: u32, cell: Cell) -> Option<(u32, u16)>
    ensures { result ≡ of_cell lfa lfb cell }
{
    match cell {
        Cell::Factor(tcf) => Some((lfa, tcf)),
        Cell::Lfb => Some((lfb, 100)),
        Cell::NoData => None,
    }
}

// The factors that a liquid's pool reads in this column.
pub fn factors_at(liquid: Liquid, column: Column) -> Option<(u32, u16)>
    ensures { result ≡ factors_of liquid column }
{
    let lfa = liquid.lfa;
    let lfb = liquid.lfb;
    let cells = liquid.corrections;
    match column {
        Column::Above => Some((lfb, 100)),
        Column::At25 => Some((lfa, 100)),
        Column::At30 => of_cell(lfa, lfb, cells.at30),
        Column::At35 => of_cell(lfa, lfb, cells.at35),
        Column::At40 => of_cell(lfa, lfb, cells.at40),
        Column::At45 => of_cell(lfa, lfb, cells.at45),
        Column::At50 => of_cell(lfa, lfb, cells.at50),
    }
}
