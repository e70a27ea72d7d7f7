// Reading one position of a chart file.
ghost use Rattle.board.specs.ChartSpots.{listed, kept, shown};
ghost use Rattle.std.specs.Prelude.{◌≡◌};
ghost use Rattle.board.specs.Reading.{SaysTo, choice_of, choices_of, no_outcomes_of, spot_of};

use crate::chart::Size;
use crate::chart::spot::{ChartSpot, Choices, MOST_OUTCOMES, Outcomes};
use wire::reader::Reader;
use wire::refusal::Refusal;

// Reader and size stay apart below: as one struct, every method would promise too that the size stays.

// The outcomes of one choice, ascending and among the positions.
#[tactic(auto, using(wire::proofs::Loops::opened))]
fn read_choice(reader: &mut Reader, size: Size) -> Result<Outcomes, Refusal>
    ensures reads { SaysTo listed result reader.new.at (choice_of reader.old.bytes.now size.positions reader.old.at) }
    ensures bytes { reader.new.bytes.now ≡ reader.old.bytes.now }
{
    let count = reader.field(0, MOST_OUTCOMES as u16)?;
    let mut outcomes = Outcomes::none();
    let mut low = 0;
    for _ in 0..count {
        let outcome = reader.field(low, size.positions - 1)?;
        outcomes.push(outcome);
        low = outcome + 1;
    }
    Ok(outcomes)
}

// The choices of a position that is not done.
#[tactic(auto, using(wire::proofs::Loops::opened))]
fn read_choices(reader: &mut Reader, size: Size) -> Result<Choices, Refusal>
    ensures reads { SaysTo kept result reader.new.at (choices_of reader.old.bytes.now size.positions size.choices reader.old.at) }
    ensures bytes { reader.new.bytes.now ≡ reader.old.bytes.now }
{
    let mut choices = Choices::none();
    for _ in 0..size.choices {
        choices.push(read_choice(reader, size)?);
    }
    Ok(choices)
}

// The choices of a done position: none of them has outcomes.
#[tactic(auto, using(wire::proofs::Loops::opened))]
fn read_no_outcomes(reader: &mut Reader, size: Size) -> Result<(), Refusal>
    ensures reads { SaysTo (λ x. x) result reader.new.at (no_outcomes_of reader.old.bytes.now size.choices reader.old.at) }
    ensures bytes { reader.new.bytes.now ≡ reader.old.bytes.now }
{
    for _ in 0..size.choices {
        reader.field(0, 0)?;
    }
    Ok(())
}

// One position: whether it is done, and its choices.
pub(crate) fn read_spot(reader: &mut Reader, size: Size) -> Result<ChartSpot, Refusal>
    ensures reads { SaysTo shown result reader.new.at (spot_of reader.old.bytes.now size.positions size.choices reader.old.at) }
    ensures bytes { reader.new.bytes.now ≡ reader.old.bytes.now }
{
    if reader.field(0, 1)? == 1 {
        read_no_outcomes(reader, size)?;
        Ok(ChartSpot::Done)
    } else {
        Ok(ChartSpot::Open(read_choices(reader, size)?))
    }
}
