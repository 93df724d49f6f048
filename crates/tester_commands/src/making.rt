//! `data`: test data of a chip, with contents that are made from a seed.
ghost use Rattle.std.specs.Prelude.{◌≡◌, ◌≤◌, IfOk, IsTrue};
ghost use Rattle.soc_model.specs.Chips.{soc_value};
ghost use Rattle.soc_model.specs.SoundChips.{IsSoundChip};
ghost use Rattle.commands.specs.Ends.{WritesUnless, MakesPuts};
ghost use Rattle.commands.specs.Endings.{Closes, LoadsEnding};
ghost use Rattle.commands.specs.Texts.{is_line};
ghost use Rattle.tester_commands.specs.Endings.{ending_value};
ghost use Rattle.tester_commands.specs.MadeText.{made_text, long_data_line as line_of, long_data_refusal};
ghost use Rattle.tester_commands.specs.Procedures.{data_procedure};

use crate::ending::{DataRequest, Ending};
use crate::made_text::MadeData;
use commands::{DATA_FILE_MOST, Status, load_chip, number_line, refused_with, write_verdict};
use outside::{NoMemory, Shelf, Sink};
use soc_model::Soc;
use std::alloc::Global;

/// `data SOC SEED`: for each live test over the wires of a chip, in its order, the contents of all patterns that a seed makes. The text
/// is written as it is made, unless it is too long.
pub fn decide_data<H: Shelf>(alloc: Global, soc: &str, seed: u64, shelf: &mut H) -> Ending
    ensures held_stays { H.held shelf.new ≡ H.held shelf.old }
    ensures faults_never_fall { H.faults shelf.old ≤ H.faults shelf.new }
    ensures closes { Closes (data_procedure soc.now seed) (H.held shelf.old)
        (H.faults shelf.old) (H.faults shelf.new) (ending_value result) }
    ensures by_loads { LoadsEnding H.is_load (data_procedure soc.now seed)
        shelf.old (ending_value result) shelf.new }
{
    match load_chip(alloc, soc, shelf) {
        Ok(soc) => Ending::MadeData(DataRequest { soc, seed }),
        Err(verdict) => Ending::Decided(verdict),
    }
}

/// `refused data long N`: the text would have N bytes.
fn long_line(alloc: Global, bytes: u128) -> Result<Vec<u8>, NoMemory>
    ensures text { IfOk result (λ text. text.items ≡ line_of bytes) }
    ensures line { IfOk result (λ text. IsTrue (is_line text.items)) }
{
    number_line(alloc, b"refused data long ", bytes)
}

/// Writes the test data of a chip as it is made, or the refusal of one that is too long. All memory is taken before the first byte.
fn write_made_data<K: Sink>(alloc: Global, soc: &Soc, seed: u64, out: &mut K) -> Status
    requires sound { IsSoundChip (soc_value soc.now) }
    ensures faults_never_fall { K.faults out.old ≤ K.faults out.new }
    ensures written { WritesUnless (long_data_refusal (made_text (soc_value soc.now) seed))
        (made_text (soc_value soc.now) seed) (K.faults out.old) (K.faults out.new)
        (K.written out.old) result (K.written out.new) }
    ensures puts { MakesPuts K.is_put out.old result out.new }
{
    match MadeData::new(alloc, soc, seed) {
        Ok(made) => {
            let mut made = made;
            let length = made.len();
            if length > u128::from(DATA_FILE_MOST) {
                let verdict = refused_with(long_line(alloc, length));
                return write_verdict(verdict, out);
            }
            match made.write(out) {
                Ok(()) => Status::Done,
                Err(_) => Status::WriteFault,
            }
        }
        Err(_) => Status::NoMemory,
    }
}

/// Writes the test data that is asked for.
pub(crate) fn write_requested<K: Sink>(alloc: Global, request: &DataRequest, out: &mut K) -> Status
    ensures faults_never_fall { K.faults out.old ≤ K.faults out.new }
    ensures written { WritesUnless (long_data_refusal (made_text request.now.soc request.now.seed))
        (made_text request.now.soc request.now.seed) (K.faults out.old) (K.faults out.new)
        (K.written out.old) result (K.written out.new) }
    ensures puts { MakesPuts K.is_put out.old result out.new }
{
    write_made_data(alloc, &request.soc, request.seed, out)
}
