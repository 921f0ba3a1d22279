//! The lines of a capture as text (our choice): payloads as packets, in phrases, or as what still
//! stands of those that are refused.
ghost use Rattle.std.specs.Prelude.{◌≡◌, ◌++◌, ℕ, List, codes, OnOk, string_bytes};
ghost use Rattle.std.specs.Fmt.{decimal};
ghost use Rattle.nbt_packets.specs.Showing.{ShowsSaid, ShowsValue, Said, IsBrief};
ghost use Rattle.nbt_command.specs.Lines.{AnyLeft};
ghost use Rattle.nb_text.specs.Shown.{Shown};
ghost use Rattle.nb_text.specs.TellsFront.{ShowsFront};
ghost use Rattle.nbt_packets.specs.ShowingFields.{FrontFields, BriefFields, PacketFields};

use nb_capture::{Comments, Line, LineText, push_comment};
use nb_streams::{NoMemory, push_decimal};
use nb_telling::Sink;
use nb_text::laws::{fields_are_members, fronts_are_members};
use nb_text::tags::KIND;
use nb_text::{push_brief, push_front, push_packet, tell_front, tell_packet};
use nbt_command::{LineFields, bare};
use std::alloc::Global;

/// The text of a line of a capture, payloads in this form.
#[derive(Drop)]
pub struct Texts<P> {
    form: P,
    /// The text of the line that was made last.
    text: String,
}

impl<P> Texts<P> {
    /// No text. No memory is taken.
    pub fn new(alloc: Global, form: P) -> Texts<P> {
        Texts {
            form,
            text: String::new(alloc),
        }
    }
}

impl<P: PayloadText> LineText for Texts<P> {
    ghost State = { Unit {0} };

    ghost state = { λ t. tt };

    ghost Beside = { Unit {0} };

    ghost beside = { λ t. tt };

    ghost is_text = { Said P.is_text };

    ghost may_leave = { AnyLeft };

    ghost text = { λ t. string_bytes t.text };

    fn make(
        &mut self,
        number: u64,
        line: &[u8],
        said: &Option<Line>,
        comments: Comments,
    ) -> Result<(), NoMemory> {
        self.text.clear();
        match said {
            Some(said) => push_line(number, said, &mut self.form, &mut self.text),
            None => push_comment(comments, line, &mut self.text),
        }
    }

    fn bytes(&self) -> &[u8] {
        self.text.as_bytes()
    }
}

/// Adds the text of what a line says.
fn push_line<P: PayloadText>(
    number: u64,
    said: &Line,
    form: &mut P,
    text: &mut String,
) -> Result<(), NoMemory>
    ensures { OnOk result ((shown : List ℕ) × ShowsValue P.is_text number said.now shown ×
        (string_bytes text.new ≡ string_bytes text.old ++ shown)) }
{
    match said {
        Line::Tick { now } => push_tick(number, *now, text),
        Line::Packet {
            port,
            moment: _,
            payload,
        } => {
            push_arrival(number, *port, text)?;
            form.push(*port, payload.as_slice(), text)
        }
    }
}

/// Adds the line of a look at the clock.
fn push_tick(number: u64, now: u64, text: &mut String) -> Result<(), NoMemory>
    ensures { OnOk result (string_bytes text.new ≡ string_bytes text.old
        ++ (decimal number ++ (codes " tick " ++ (decimal now ++ codes "\n")))) }
{
    push_decimal(number, text)?;
    text.push_str(" tick ")?;
    push_decimal(now, text)?;
    text.push_str("\n")?;
    Ok(())
}

/// Adds what stands before the text of a payload: the line's number and its port.
fn push_arrival(number: u64, port: u16, text: &mut String) -> Result<(), NoMemory>
    ensures { OnOk result (string_bytes text.new ≡ string_bytes text.old
        ++ (decimal number ++ (codes " " ++ (decimal port ++ codes " ")))) }
{
    push_decimal(number, text)?;
    text.push_str(" ")?;
    push_decimal(u64::from(port), text)?;
    text.push_str(" ")?;
    Ok(())
}

/// A form in which payloads are shown.
pub trait PayloadText {
    ghost use Rattle.std.specs.Prelude.{ℕ, List};

    // Which text a payload that came to a port has.
    ghost is_text: { List ℕ → ℕ → List ℕ → Type 0 };

    /// Adds the text of a payload that came to a port.
    fn push(&mut self, port: u16, payload: &[u8], text: &mut String) -> Result<(), NoMemory>
        ensures { OnOk result ((shown : List ℕ) × is_text payload.now port shown ×
            (string_bytes text.new ≡ string_bytes text.old ++ shown)) };
}

/// All of a packet.
impl PayloadText for Packets {
    ghost is_text = { Shown };

    fn push(&mut self, port: u16, payload: &[u8], text: &mut String) -> Result<(), NoMemory> {
        push_packet(port, payload, text)
    }
}

/// What the fronts of payloads say.
#[derive(Drop)]
pub struct Fronts;

/// The packet, or why there is none, and what still stands.
impl PayloadText for Fronts {
    ghost is_text = { ShowsFront };

    fn push(&mut self, port: u16, payload: &[u8], text: &mut String) -> Result<(), NoMemory> {
        push_front(port, payload, text)
    }
}

/// The fields of these.
impl LineFields for Fronts {
    ghost State = { Unit {0} };

    ghost state = { λ s. tt };

    ghost are_fields = { FrontFields };

    fn tell<S: Sink>(&mut self, said: &Line, sink: &mut S) -> Result<(), NoMemory> {
        // The law that makes the fields members; the call does nothing.
        fronts_are_members();
        match said {
            Line::Packet { port, payload, .. } => tell_front(*port, payload.as_slice(), sink),
            Line::Tick { .. } => sink.text(KIND, "tick"),
        }
    }
}

/// Phrases of payloads, whose memory is used again.
#[derive(Drop)]
pub struct Phrases {
    /// The phrase is made in this for an object.
    text: String,
}

impl Phrases {
    /// No phrase. No memory is taken.
    pub fn new(alloc: Global) -> Phrases {
        Phrases {
            text: String::new(alloc),
        }
    }
}

/// A payload's phrase, and the end of the line.
impl PayloadText for Phrases {
    ghost is_text = { IsBrief };

    fn push(&mut self, port: u16, payload: &[u8], text: &mut String) -> Result<(), NoMemory> {
        push_brief(port, payload, text)?;
        text.push_str("\n")?;
        Ok(())
    }
}

/// A payload's phrase, and the packet.
impl LineFields for Phrases {
    ghost State = { Unit {0} };

    ghost state = { λ s. tt };

    ghost are_fields = { BriefFields };

    fn tell<S: Sink>(&mut self, said: &Line, sink: &mut S) -> Result<(), NoMemory> {
        // The law that makes the fields members; the call does nothing.
        fields_are_members();
        match said {
            Line::Packet { port, payload, .. } => {
                self.text.clear();
                push_brief(*port, payload.as_slice(), &mut self.text)?;
                sink.text(bare("brief"), self.text.as_str())?;
                tell_packet(*port, payload.as_slice(), sink)
            }
            Line::Tick { .. } => sink.text(KIND, "tick"),
        }
    }
}

/// The packets.
#[derive(Drop)]
pub struct Packets;

impl LineFields for Packets {
    ghost State = { Unit {0} };

    ghost state = { λ s. tt };

    ghost are_fields = { PacketFields };

    #[tactic(auto, using(nb_telling::proofs::FoldLemmas::told_both))]
    fn tell<S: Sink>(&mut self, said: &Line, sink: &mut S) -> Result<(), NoMemory> {
        // The law that makes the fields members; the call does nothing.
        fields_are_members();
        match said {
            Line::Packet { port, payload, .. } => tell_packet(*port, payload.as_slice(), sink),
            Line::Tick { .. } => sink.text(KIND, "tick"),
        }
    }
}
