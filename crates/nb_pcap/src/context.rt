//! What the parts of a file are read by.
ghost use Rattle.std.specs.Prelude.{◌≡◌, Ok, true, false, length};
ghost use Rattle.nb_pcap.specs.Context.{size_of, content, passes_over, order_in};
ghost use Rattle.nb_pcap.specs.File.{IsEnd};
ghost use Rattle.nb_pcap.specs.Section.{Gives};

use crate::block::{BlockKind, block_size, kind_in};
use crate::fault::FileFault;
use crate::form::{Form, form_of, marks_in, record_head, record_size};
use crate::frame::Head;
use crate::limits::{BLOCK_LENGTH, HEADER_LENGTH, MAGIC_LENGTH};
use crate::numbers::{Order, number_32};
use crate::section::{Section, take_block};
use nb_streams::Items;
use std::alloc::Global;

/// What the parts of a file are read by, which are its header, records or blocks.
#[derive(Drop)]
pub enum Context {
    /// Nothing came yet.
    Beginning,
    /// The header of a classic file came, and records follow.
    Records(Form),
    /// A section came, and blocks follow.
    Blocks(Section),
}

/// How many bytes the part has at least that these bytes begin, as far as they say.
pub fn size_of(context: &Context, bytes: &[u8]) -> Result<usize, FileFault>
    ensures { result ≡ size_of context.now bytes.now }
{
    match context {
        Context::Beginning => {
            if bytes.len() < MAGIC_LENGTH {
                return Ok(MAGIC_LENGTH);
            }
            if marks_in(bytes).is_some() {
                return Ok(HEADER_LENGTH);
            }
            if number_32(Order::Little, bytes, 0) != 0x0a0d_0d0a {
                return Err(FileFault::UnknownForm);
            }
            block_size(Order::Little, bytes)
        }
        Context::Records(form) => record_size(*form, bytes),
        Context::Blocks(section) => block_size(section.order, bytes),
    }
}

/// Whether the part is passed over that these bytes begin.
pub fn passes_over(context: &Context, bytes: &[u8]) -> bool
    ensures { result ≡ passes_over context.now bytes.now }
{
    match context {
        Context::Beginning | Context::Records(_) => false,
        Context::Blocks(section) => {
            BLOCK_LENGTH <= bytes.len() && matches!(kind_in(section.order, bytes), BlockKind::Other)
        }
    }
}

/// The order of the bytes of a block's numbers.
pub fn order_in(context: &Context) -> Order
    ensures { result ≡ order_in context.now }
{
    match context {
        Context::Beginning => Order::Little,
        Context::Records(form) => form.order,
        Context::Blocks(section) => section.order,
    }
}

/// Whether the file may end here, where these bytes are left: it has a header at least.
pub fn is_end(context: &Context, rest: &[u8]) -> bool
    ensures yes { result ≡ true → IsEnd context.now rest.now }
    ensures no { result ≡ false → IsEnd context.now rest.now → ⊥ }
{
    match context {
        Context::Beginning => false,
        Context::Records(_) => rest.is_empty(),
        Context::Blocks(_) => rest.is_empty(),
    }
}

/// Takes in a part of a file, which is as long as it says, and answers where a frame stands in it.
/// At a fault the context is as it was.
pub fn take_in(alloc: Global, context: &mut Context, part: &[u8]) -> Result<Option<Head>, FileFault>
    requires { size_of context.old part.now ≡ Ok (length part.now) }
    ensures { Gives (content context.old part.now) result context.old context.new }
{
    match context {
        Context::Beginning => match form_of(part) {
            Some(form) => {
                *context = Context::Records(form);
                Ok(None)
            }
            None => {
                let mut section = Section {
                    order: Order::Little,
                    interfaces: Items::from_vec(Vec::new(alloc)),
                    earlier: 0,
                };
                let found = take_block(alloc, &mut section, part)?;
                *context = Context::Blocks(section);
                Ok(found)
            }
        },
        Context::Records(form) => Ok(Some(record_head(*form, part))),
        Context::Blocks(section) => take_block(alloc, section, part),
    }
}
