ghost use Rattle.std.specs.Prelude.{◌≡◌, ℕ, List};
ghost use Rattle.fasm_text.specs.Fields.{IsRange};
ghost use Rattle.fasm_text.specs.declared.error.FasmError.{FasmError as Refusal};
ghost use Rattle.fasm_text.specs.declared.error.FasmError.TheVariants.{OutOfMemory};
ghost use Rattle.fasm_text.specs.Sets.{NamedBit};
ghost use Rattle.fasm_text.specs.Texts.{TextSets, RefusesText, AreOneRefusal};

/// Tells a caller's proof that a text sets one list of bits, that a text which sets bits is refused
/// by want of memory alone, and that a text is refused in one way. It does nothing.
pub fn one_reading()
    ensures sets { (bytes : List ℕ) (a b : List NamedBit)
        → TextSets bytes a → TextSets bytes b → a ≡ b }
    ensures read { (bytes : List ℕ) (set : List NamedBit) (e : Refusal)
        → TextSets bytes set → RefusesText bytes e → e ≡ OutOfMemory }
    ensures refused { (bytes : List ℕ) (e f : Refusal)
        → RefusesText bytes e → RefusesText bytes f → AreOneRefusal e f }
{}

/// Tells a caller's proof that brackets say one range of bits at most. It does nothing.
pub fn one_range()
    ensures { (inside : List ℕ) (lo hi bottom top : ℕ) → IsRange inside lo hi
        → IsRange inside bottom top → (lo ≡ bottom) × (hi ≡ top) }
{}
