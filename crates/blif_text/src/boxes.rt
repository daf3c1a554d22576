ghost use Rattle.std.specs.Prelude.{◌≡◌, ◌<◌, ◌++◌, length, map, OnOk};
ghost use Rattle.std.specs.List.{All};
ghost use Rattle.blif_text.specs.Boxes.{params_text, pin_text, pins_text};

use crate::words::{end_line, net_name, put_word};
use names::Names;
use net_types::Conn;
use std::alloc::AllocError;
use vtr_base::{Text, put_number};

/// Appends the pins of a box.
pub(crate) fn put_pins(out: &mut Vec<u8>, nets: &Names, pins: &[&Conn]) -> Result<(), AllocError>
    requires { All (λ c. c.now.net < length nets.now) pins.now }
    ensures { OnOk result (out.new.items ≡ out.old.items
        ++ pins_text nets.now (map (λ c. c.now) pins.now)) }
{
    for pin in pins {
        put_pin(out, nets, pin)?;
    }
    Ok(())
}

/// Appends a pin and the name of its net.
fn put_pin(out: &mut Vec<u8>, nets: &Names, pin: &Conn) -> Result<(), AllocError>
    requires { pin.now.net < length nets.now }
    ensures { OnOk result (out.new.items ≡ out.old.items ++ pin_text nets.now pin.now) }
{
    put_word(out, pin.port.as_str())?;
    out.push(b'[')?;
    put_number(out, u64::from(pin.bit))?;
    out.extend_from_slice(b"]=")?;
    out.extend_from_slice(net_name(nets, pin.net).as_bytes())
}

/// Appends a line for each parameter of a box.
pub(crate) fn put_params(out: &mut Vec<u8>, params: &[(Text, Text)]) -> Result<(), AllocError>
    ensures { OnOk result (out.new.items ≡ out.old.items ++ params_text params.now) }
{
    for (name, value) in params {
        out.extend_from_slice(b".param")?;
        put_word(out, name.as_str())?;
        put_word(out, value.as_str())?;
        end_line(out)?;
    }
    Ok(())
}
