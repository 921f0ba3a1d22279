//! Numbers, in either order of their bytes.
ghost use Rattle.std.specs.Prelude.{◌≡◌, ◌+◌, ◌≤◌, length, take, drop};
ghost use Rattle.std.specs.Int.{w16, w32, w64};
ghost use Rattle.nb_pcap.specs.Numbers.{number};

/// Which byte of a number comes first.
#[derive(Clone, Copy)]
pub enum Order {
    /// The lowest.
    Little,
    /// The highest.
    Big,
}

/// The bytes of a field at a place, which are there.
fn field<const N: usize>(bytes: &[u8], at: usize) -> [u8; N]
    requires { at + N ≤ length bytes.now }
    ensures { result ≡ take N (drop at bytes.now) }
{
    let mut field = [0; N];
    field.copy_from_slice(&bytes[at..at + N]);
    field
}

/// The number in the two bytes at a place, which are there.
pub fn number_16(order: Order, bytes: &[u8], at: usize) -> u16
    requires { at + 2 ≤ length bytes.now }
    ensures { result ≡ number order w16 bytes.now at }
{
    match order {
        Order::Little => u16::from_le_bytes(field(bytes, at)),
        Order::Big => u16::from_be_bytes(field(bytes, at)),
    }
}

/// The number in the four bytes at a place, which are there.
pub fn number_32(order: Order, bytes: &[u8], at: usize) -> u32
    requires { at + 4 ≤ length bytes.now }
    ensures { result ≡ number order w32 bytes.now at }
{
    match order {
        Order::Little => u32::from_le_bytes(field(bytes, at)),
        Order::Big => u32::from_be_bytes(field(bytes, at)),
    }
}

/// The number in the eight bytes at a place, which are there.
pub fn number_64(order: Order, bytes: &[u8], at: usize) -> u64
    requires { at + 8 ≤ length bytes.now }
    ensures { result ≡ number order w64 bytes.now at }
{
    match order {
        Order::Little => u64::from_le_bytes(field(bytes, at)),
        Order::Big => u64::from_be_bytes(field(bytes, at)),
    }
}
