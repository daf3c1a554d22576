ghost use Rattle.std.specs.Prelude.{◌<◌, ◌^◌, ℕ, List};
ghost use Rattle.arch_types.specs.Names.{IsPlainName};
ghost use Rattle.blif_boxes.specs.Pins.{IsPinWord};
ghost use Rattle.pin_texts.specs.Words.{IsNamed, pin_said, pin_word};

/// Tells a caller's proof that the word `port[bit]=net` says the pin at this bit of the port, with
/// this net. It does nothing.
pub fn text_pins()
    ensures { (port : List ℕ) (bit : ℕ) (net : List ℕ) → IsPlainName port → bit < 2 ^ 32
        → IsNamed net → IsPinWord (pin_word port bit net) (pin_said port bit net) }
{}
