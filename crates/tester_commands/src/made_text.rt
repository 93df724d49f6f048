//! The whole text of made data.
ghost use Rattle.std.specs.Prelude.{◌≡◌, ◌≤◌, List, ℕ, false, length, IfOk, OnOk, OnErr};
ghost use Rattle.outside.specs.Held.{Appended};
ghost use Rattle.outside.specs.Puts.{Puts};
ghost use Rattle.soc_model.specs.Chips.{soc_value};
ghost use Rattle.soc_model.specs.SoundChips.{IsSoundChip};
ghost use Rattle.tester_commands.specs.MadeText.{made_text};
ghost use Rattle.tester_commands.specs.ReadyData.{IsReady};
ghost use Rattle.tester_commands.specs.Sending.{HasFailed};

use crate::blocks::Block;
use crate::parts::{Part, chip_parts, parts_length};
use outside::{NoMemory, Sink, WriteFault};
use soc_model::Soc;
use std::alloc::Global;

/// The length of the first line, in bytes.
const TITLE: u128 = 7;

/// Made data that is ready to be written: all memory is taken.
#[derive(Drop)]
pub struct MadeData {
    parts: Vec<Part>,
    length: u128,
    block: Block,
}

impl MadeData {
    /// The made data of a sound chip and a seed.
    pub fn new(alloc: Global, soc: &Soc, seed: u64) -> Result<MadeData, NoMemory>
        requires { IsSoundChip (soc_value soc.now) }
        ensures { IfOk result (IsReady (made_text (soc_value soc.now) seed)) }
    {
        let parts = chip_parts(alloc, soc, seed)?;
        let length = TITLE + parts_length(&parts);
        let block = Block::new(alloc)?;
        Ok(MadeData {
            parts,
            length,
            block,
        })
    }

    /// The length of the text, in bytes.
    pub fn len(&self) -> u128
        ensures { (text : List ℕ) → IsReady text self.now → result ≡ length text }
    {
        self.length
    }

    /// Writes the text.
    pub fn write<K: Sink>(&mut self, out: &mut K) -> Result<(), WriteFault>
        requires { (text : List ℕ) × IsReady text self.old }
        ensures faults { K.faults out.old ≤ K.faults out.new }
        ensures written { OnOk result ((text : List ℕ) → IsReady text self.old →
            Appended (K.written out.old) text (K.written out.new)) }
        ensures none_failed { OnOk result (Puts K.is_put out.old false out.new) }
        ensures failed { OnErr result ((text : List ℕ) → IsReady text self.old →
            HasFailed K.is_put K.written K.faults out.old out.new text) }
    {
        self.block.write(&self.parts, out)
    }
}
