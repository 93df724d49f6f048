//! The laws over the definitions. Each is the contract of a function that does nothing: a caller learns it by the call.
ghost use Rattle.std.specs.Prelude.{◌≡◌, ℕ, ◌+◌, Bool, List, length, sum_by};
ghost use Rattle.soc_model.specs.Chips.{ModuleValue, SocValue};
ghost use Rattle.soc_model.specs.Modes.{scan_lengths};
ghost use Rattle.soc_model.specs.SoundChips.{IsSoundChip};
ghost use Rattle.plan_model.specs.Cells.{Cell, ChainValue, IsProper, IsResponseBit, IsStimulusBit, chain_cells, out_length, response_cells};
ghost use Rattle.vector_lines.specs.Made.{made_content, made_drive, made_keys, made_mark};
ghost use Rattle.vector_lines.specs.Marks.{response_digits};
ghost use Rattle.vector_lines.specs.Placed.{StandFor};
ghost use Rattle.vector_lines.specs.Places.{response_place, stimulus_place};

/// The bits of a response stand in a capture as they are numbered: those of the scan chains' cells by scan chain and
/// place, and then those of the output cells.
pub fn responses_are_numbered()
    ensures { (m : ModuleValue) (scan : Bool) (x : Cell) (n : ℕ) → IsResponseBit m scan x n →
        response_place (scan_lengths m scan) x ≡ n }
{}

/// The bits of a stimulus are numbered so too: those of the input cells, and then those of the scan chains' cells by scan
/// chain and place.
pub fn stimuli_are_numbered()
    ensures { (m : ModuleValue) (scan : Bool) (x : Cell) (n : ℕ) → IsStimulusBit m scan x n →
        stimulus_place (m.inputs + m.bidirs) (scan_lengths m scan) x ≡ n }
{}

/// The chains of a proper wrapper have as many cells that are read as a response has bits.
pub fn responses_have_lengths()
    ensures { (m : ModuleValue) (scan : Bool) (chains : List ChainValue) → IsProper m scan chains →
        sum_by out_length (chain_cells m scan chains) ≡ length (response_cells m scan) }
{}

/// The made contents of a seed stand for the made bits of a sound chip, and for their digits where they are read.
pub fn made_contents_stand()
    ensures { (soc : SocValue) (seed : ℕ) → IsSoundChip soc →
        StandFor (made_keys seed) made_drive made_mark soc (made_content soc seed)
        (response_digits (made_content soc seed)) }
{}
