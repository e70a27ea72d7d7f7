// Reading a chart file.
ghost use Rattle.std.specs.Prelude.{◌≡◌, []};
ghost use Rattle.board.specs.ChartSpots.{all_shown};
ghost use Rattle.board.specs.Reading.{Reads, ReadsTo, Sheet, spots_of, sheet_of, ReadsSheet};
ghost use Rattle.board.specs.Charts.{sheet, chart_arena};
ghost use Rattle.board.specs.ChartFile.{ChartLaw};

use self::spot::read_spot;
use crate::chart::spot::{ChartSpot, MOST_CHOICES};
use crate::chart::{Chart, Size};
use wire::reader::Reader;
use wire::refusal::Refusal;

mod spot;

// The most positions of a chart.
const MOST_POSITIONS: u16 = 256;

// Each position, into an empty list.
#[tactic(auto, using(wire::proofs::Loops::opened, std::proofs::lemmas::List::map_push))]
fn read_spots(reader: &mut Reader, size: Size, spots: &mut Vec<ChartSpot>) -> Result<(), Refusal>
    requires { spots.old.items ≡ [] }
    ensures reads { ReadsTo (λ _. all_shown spots.new) result reader.new.at (spots_of reader.old.bytes.now size.positions size.choices reader.old.at) }
    ensures bytes { reader.new.bytes.now ≡ reader.old.bytes.now }
{
    for _ in 0..size.positions {
        spots.push(read_spot(reader, size)?)?;
    }
    Ok(())
}

// The whole file: the numbers of positions and choices, and the positions into an empty list.
fn read_whole(bytes: &[u8], spots: &mut Vec<ChartSpot>) -> Result<Size, Refusal>
    requires { spots.old.items ≡ [] }
    ensures { Reads (λ size. record { positions = size.positions; choices = size.choices; spots = all_shown spots.new }) result (sheet_of bytes.now) }
{
    let mut reader = Reader::new(bytes);
    let positions = reader.field(1, MOST_POSITIONS)?;
    let choices = reader.field(1, MOST_CHOICES as u16)?;
    let size = Size { positions, choices };
    read_spots(&mut reader, size, spots)?;
    reader.finish()?;
    Ok(size)
}

// Reads a chart file into `out`, which is the zero chart after any refusal.
// The caller's own value is filled and not one answered, since the promise tells it after a refusal too; and what memory it has is used again.
pub fn read_chart(bytes: &[u8], out: &mut Chart) -> Result<(), Refusal>
    ensures reads { ReadsSheet bytes.now result (sheet out.new) }
    ensures law { ChartLaw bytes.now result (chart_arena out.new) }
{
    out.size = Size::one();
    out.spots.clear();
    match read_whole(bytes, &mut out.spots) {
        Ok(size) => {
            out.size = size;
            Ok(())
        }
        Err(refusal) => {
            out.spots.clear();
            Err(refusal)
        }
    }
}
