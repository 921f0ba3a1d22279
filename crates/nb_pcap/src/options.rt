//! The options of an interface.
ghost use Rattle.std.specs.Prelude.{◌≡◌, ◌≤◌, option_map};
ghost use Rattle.nb_pcap.specs.Options.{noted, padded, said_value, options_said};

use crate::limits::{MAX_NAME, OPTION_LENGTH};
use crate::numbers::{Order, number_16, number_64};

/// What the options of an interface say.
#[derive(Clone, Copy)]
pub struct Said<'a> {
    /// Its name, if_name.
    pub name: Option<&'a [u8]>,
    /// The resolution of its times, if_tsresol.
    pub resolution: u8,
    /// The seconds at which they begin, if_tsoffset.
    pub offset: u64,
}

/// What is said after an option.
fn noted<'a>(order: Order, said: Said<'a>, code: u16, value: &'a [u8]) -> Said<'a>
    ensures { said_value result ≡ noted order (said_value said.entry) code value.now }
{
    match code {
        2 => Said {
            name: if value.len() <= MAX_NAME {
                Some(value)
            } else {
                None
            },
            ..said
        },
        9 if value.len() == 1 => Said {
            resolution: value[0],
            ..said
        },
        14 if value.len() == 8 => Said {
            offset: number_64(order, value, 0),
            ..said
        },
        _ => said,
    }
}

/// How many bytes the value of an option takes up with what pads it to four.
fn padded(size: usize) -> usize
    requires { size ≤ 65535 }
    ensures { result ≡ padded size }
{
    (size + 3) / 4 * 4
}

/// What options say, one after another, up to the one that ends them or to the end of the bytes;
/// none where one runs past that. The resolution is a millionth of a second, and times begin in
/// 1970, where none says otherwise; of options of one code the last counts.
pub fn options_said<'a>(order: Order, bytes: &'a [u8]) -> Option<Said<'a>>
    ensures { option_map said_value result ≡ options_said order bytes.now }
{
    let mut said = Said {
        name: None,
        resolution: 6,
        offset: 0,
    };
    let mut left = bytes;
    'options: while OPTION_LENGTH <= left.len() {
        let code = number_16(order, left, 0);
        let size = number_16(order, left, 2) as usize;
        if code == 0 {
            return Some(said);
        }
        if left.len() - OPTION_LENGTH < size {
            return None;
        }
        said = noted(
            order,
            said,
            code,
            &left[OPTION_LENGTH..OPTION_LENGTH + size],
        );
        let next = OPTION_LENGTH + padded(size);
        left = &left[next.min(left.len())..];
    }
    Some(said)
}
