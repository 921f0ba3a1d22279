//! From where and to where packets go.
ghost use Rattle.std.specs.Prelude.{◌≡◌, ◌++◌, ℕ, List, Some, OnOk, string_bytes, flat_map, option_map};
ghost use Rattle.std.specs.Borrow.{Bor};
ghost use Rattle.std.specs.Net.Text.{ip_text};
ghost use Rattle.nbt_look.specs.Ends.{end_text, first_label, is_no_name, label_of, mark_in, shown_byte, with_port};

use nb_streams::{Bytes, NoMemory, push_address, push_decimal, push_digits, push_shown};
use std::alloc::Global;
use std::net::IpAddr;

/// Adds an address.
pub fn push_ip(address: IpAddr, text: &mut String) -> Result<(), NoMemory>
    ensures { OnOk result (string_bytes text.new ≡ string_bytes text.old ++ ip_text address) }
{
    match address {
        IpAddr::V4(four) => push_address(four.octets(), text),
        IpAddr::V6(six) => push_shown(six, text),
    }
}

/// Adds an end of a packet of the service of this port: an address, and its port where it isn't the
/// service's own.
pub fn push_end(address: IpAddr, port: u16, service: u16, text: &mut String) -> Result<(), NoMemory>
    ensures { OnOk result
        (string_bytes text.new ≡ string_bytes text.old ++ end_text address port service) }
{
    if port == service {
        return push_ip(address, text);
    }
    push_with_port(address, port, text)
}

/// Adds an address with its port behind it.
pub fn push_with_port(address: IpAddr, port: u16, text: &mut String) -> Result<(), NoMemory>
    ensures { OnOk result
        (string_bytes text.new ≡ string_bytes text.old ++ with_port address port) }
{
    match address {
        IpAddr::V4(_) => {
            push_ip(address, text)?;
            text.push_str(":")?;
            push_decimal(u64::from(port), text)
        }
        IpAddr::V6(_) => {
            text.push_str("[")?;
            push_ip(address, text)?;
            text.push_str("]:")?;
            push_decimal(u64::from(port), text)
        }
    }
}

/// Adds the bytes of a name: each as it stands where it shows, else by its digits.
pub fn push_name(name: &[u8], text: &mut String) -> Result<(), NoMemory>
    ensures { OnOk result
        (string_bytes text.new ≡ string_bytes text.old ++ flat_map shown_byte name.now) }
{
    for byte in name {
        push_shown_byte(*byte, text)?;
    }
    Ok(())
}

/// Adds a byte of a name.
fn push_shown_byte(byte: u8, text: &mut String) -> Result<(), NoMemory>
    ensures { OnOk result (string_bytes text.new ≡ string_bytes text.old ++ shown_byte byte) }
{
    if b' ' <= byte && byte <= b'~' {
        text.push(char::from(byte))?;
        return Ok(());
    }
    text.push_str("\\x")?;
    push_digits(&[byte], text)
}

/// Whether this is no name of an interface.
pub fn is_no_name(name: &[u8]) -> bool
    ensures { result ≡ is_no_name name.now }
{
    name.is_empty() || name == b"unknown".as_slice()
}

/// Adds what an interface is called: its name, or else its number in the file.
pub fn push_label(number: u64, name: Option<&[u8]>, text: &mut String) -> Result<(), NoMemory>
    ensures { OnOk result (string_bytes text.new ≡ string_bytes text.old
        ++ label_of number (option_map (λ (n : Bor (List ℕ)). n.now) name.entry)) }
{
    match name {
        Some(name) if !is_no_name(name) => push_name(name, text),
        _ => push_decimal(number, text),
    }
}

/// Adds an interface, where it isn't that of the first line; before that there is none.
pub fn push_mark(interface: &Option<Bytes>, label: &str, text: &mut String) -> Result<(), NoMemory>
    ensures { OnOk result
        (string_bytes text.new ≡ string_bytes text.old ++ mark_in interface.now label.now) }
{
    let Some(first) = interface else {
        return Ok(());
    };
    if first.as_slice() == label.as_bytes() {
        return Ok(());
    }
    text.push_str("%")?;
    text.push_str(label)?;
    Ok(())
}

/// Keeps what the interface of the first line is called, where this is the first line.
pub fn keep_first(alloc: Global, interface: &mut Option<Bytes>, label: &str) -> Result<(), NoMemory>
    ensures { OnOk result (interface.new ≡ Some (first_label interface.old label.now)) }
{
    if interface.is_some() {
        return Ok(());
    }
    *interface = Some(Bytes::copy(alloc, label.as_bytes())?);
    Ok(())
}
