//! The form: its head, and the vectors.
ghost use Rattle.std.specs.Prelude.{◌≡◌, ◌+◌, ◌*◌, ◌≤◌, ◌^◌, length, IfOk, sum};
ghost use Rattle.soc_model.specs.Chips.{soc_value};
ghost use Rattle.soc_model.specs.SoundChips.{IsSoundChip};
ghost use Rattle.plan_model.specs.Plans.{widths};
ghost use Rattle.plan_model.specs.Views.{plan_value};

use crate::stil_head::stil_head;
use crate::{Letters, put_letters, put_piece};
use controls::controls_of;
use cycle_texts::{CycleForm, Row};
use live_tests::all_wires;
use outside::NoMemory;
use plan_model::Plan;
use soc_model::Soc;
use std::alloc::Global;

/// What a vector has beside bits, in bytes, at most.
const BESIDE_BITS: usize = 64;

/// The STIL text of a plan's run.
#[derive(Drop)]
pub struct StilForm {
    /// The text before the first cycle.
    head: Vec<u8>,
    /// How many wires and controls there are.
    wires: usize,
    controls: usize,
    ghost few_wires: { wires ≤ 256 },
    ghost few_controls: { controls ≤ 6096 },
}

impl StilForm {
    ghost use Rattle.tester_forms.specs.StilForms.{IsStilForm};
    ghost use Rattle.tester_forms.specs.StilText.{control_bits, wire_bits};
    ghost use Rattle.cycle_texts.specs.Rows.{HasSizes, IsPutAt, row_of};

    /// The STIL form of the run of a plan of a sound chip. `NoMemory` where memory runs out.
    pub fn new(alloc: Global, soc: &Soc, plan: &Plan) -> Result<StilForm, NoMemory>
        requires sound { IsSoundChip (soc_value soc.now) }
        requires narrow { sum (widths (plan_value plan.now)) ≤ 256 }
        ensures { IfOk result (IsStilForm (soc_value soc.now) (plan_value plan.now)) }
    {
        let wires = all_wires(plan) as usize;
        let controls = controls_of(alloc, soc)?;
        let head = stil_head(alloc, &soc.name, wires, &controls)?;
        Ok(StilForm {
            head,
            wires,
            controls: controls.len(),
        })
    }

    /// Puts what the wires carry and what is compared on them, where there are any.
    fn put_wires(&self, row: Row<'_>, text: &mut [u8], at: usize) -> usize
        requires row { HasSizes self.now.wires self.now.controls (row_of row) }
        requires room { at + (2 * self.now.wires + 12) ≤ length text.old }
        ensures { IsPutAt at (wire_bits row.entry.driven.now row.entry.compared.now) result text.old
            text.new }
    {
        if self.wires == 0 {
            return at;
        }
        let letters = Letters {
            zero: b'L',
            one: b'H',
            none: b'X',
        };
        let driven = put_piece(text, at, b" i = ");
        let between = put_piece(text, driven, row.driven);
        let compared = put_piece(text, between, b"; o = ");
        let end = put_letters(letters, row.compared, text, compared);
        put_piece(text, end, b";")
    }

    /// Puts the controls, where there are any.
    fn put_controls(&self, row: Row<'_>, text: &mut [u8], at: usize) -> usize
        requires row { HasSizes self.now.wires self.now.controls (row_of row) }
        requires room { at + (self.now.controls + 6) ≤ length text.old }
        ensures { IsPutAt at (control_bits row.entry.controls.now) result text.old text.new }
    {
        if self.controls == 0 {
            return at;
        }
        let bits = put_piece(text, at, b" c = ");
        let end = put_piece(text, bits, row.controls);
        put_piece(text, end, b";")
    }
}

impl CycleForm for StilForm {
    ghost use Rattle.tester_forms.specs.StilText.{stil_line, stil_tail};

    ghost wires_of = { λ form. form.wires };

    ghost controls_of = { λ form. form.controls };

    ghost room_of = { λ form. 2 * form.wires + form.controls + 64 };

    ghost head_of = { λ form. form.head.items };

    ghost part_of = { λ form cycle before row. stil_line row };

    ghost tail_of = { λ form. stil_tail };

    fn head(&self) -> &[u8] {
        &self.head
    }

    fn tail(&self) -> &[u8] {
        b"}\n"
    }

    fn room(&self) -> usize {
        2 * self.wires + self.controls + BESIDE_BITS
    }

    fn put(
        &self,
        _cycle: u64,
        _before: Option<Row<'_>>,
        row: Row<'_>,
        text: &mut [u8],
        at: usize,
    ) -> usize {
        let wires = put_piece(text, at, b"  V { clock = P;");
        let controls = self.put_wires(row, text, wires);
        let end = self.put_controls(row, text, controls);
        put_piece(text, end, b" }\n")
    }
}
