//! What a text of test data says is settled, and so is what data has that suits a chip. Each law is the contract of a function that
//! does nothing: a caller learns it by the call.
ghost use Rattle.std.specs.Prelude.{◌≡◌, ◌⊎◌, ℕ, List, None};
ghost use Rattle.outside.specs.Words.{Word as TextWord};
ghost use Rattle.outside.specs.Grammars.{RefusedAt};
ghost use Rattle.soc_model.specs.Chips.{SocValue};
ghost use Rattle.soc_model.specs.SoundChips.{IsSoundChip};
ghost use Rattle.plan_model.specs.Runs.{Content};
ghost use Rattle.test_data.specs.Suiting.{misfit_of};
ghost use Rattle.test_data.specs.Agreement.{Agrees, Suits};
ghost use Rattle.test_data.specs.DataWords.{EntryValue, InData, IsDataText, RefusesData, SaysData};

/// Words say at most one list of entries.
pub fn say_one_data()
    ensures { (ws : List TextWord) (a b : List EntryValue) → IsDataText ws a → IsDataText ws b →
        a ≡ b }
{}

/// A text that says entries is refused at no line.
pub fn data_is_not_refused()
    ensures { (ws : List TextWord) (end line : ℕ) → InData ws → RefusedAt InData ws end line → ⊥ }
{}

/// A text is refused at no more than one line.
pub fn data_refused_once()
    ensures { (ws : List TextWord) (end a b : ℕ) → RefusedAt InData ws end a →
        RefusedAt InData ws end b → a ≡ b }
{}

/// Each text says entries, or is refused at a line.
pub fn each_text_is_answered()
    ensures { (bytes : List ℕ) →
        ((es : List EntryValue) × SaysData bytes es) ⊎ ((line : ℕ) × RefusesData bytes line) }
{}

/// Data without a misfit has exactly one entry for each live test over the wires of the chip, with its patterns and their bits, and
/// nothing else.
pub fn data_without_misfit_suits()
    ensures { (soc : SocValue) (es : List EntryValue) → IsSoundChip soc →
        misfit_of soc es ≡ None → Suits soc es }
{}

/// Some content agrees with data that suits a chip.
pub fn some_content_agrees()
    ensures { (soc : SocValue) (es : List EntryValue) → IsSoundChip soc → Suits soc es →
        (content : Content) × Agrees soc es content }
{}
