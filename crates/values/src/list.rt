// Reading a list from its text, element by element.
ghost use Rattle.std.specs.Prelude.{◌≡◌, ℕ, ◌+◌, ◌^◌, ◌<◌, ◌≤◌, List, length, drop, MatchResult, IfOk, OnOk, slice_index};
ghost use Rattle.values.specs.Lists.{Separate, NoElement, ReadsElement, ReadsList};
ghost use Rattle.values.specs.Reading.{StopsAt};
ghost use Rattle.values.specs.Rows.{Stopping, Behind, fault_behind};
ghost use Rattle.values.specs.Signs.{byte_of};
ghost use Rattle.values.specs.Texts.{list_text};

use crate::fault::ReadFault;
use crate::front::Front;
use crate::sign::Sign;
use std::alloc::AllocError;

// What keeps the elements of a list as they are read.
pub trait Elements {
    // What is known of an element between reading and keeping it.
    type Read: Copy;

    ghost Element: { Type 0 };

    // The text of an element.
    ghost spelled: { Element → List ℕ };

    // What it is before and after an element is read that is still to be kept.
    ghost Finds: { Self.Read → Self → Element → Self → Type 0 };

    // What it is before and after one more element is kept.
    ghost Keeps: { Self → Element → Self → Type 0 };

    // Reads the element at the beginning of a text.
    fn read_element(&mut self, text: &[u8]) -> Result<Front<Self::Read>, ReadFault>
        ensures { MatchResult result (λ front. ReadsElement spelled (Finds front.value) text.now front.length self.old self.new) (λ f. Stopping (StopsAt spelled text.now) f) };

    // Keeps the element that was read just before.
    fn keep(&mut self, read: Self::Read) -> Result<(), AllocError>
        ensures { OnOk result ((before : Self) (x : Element) → Finds read before x self.old → Keeps before x self.new) };
}

// The sign behind an element, and its place.
#[derive(Clone, Copy)]
struct SignBehind {
    sign: Sign,
    place: usize,
}

impl ReadFault {
    // The same of a text that stands behind `at` bytes.
    fn behind(self, at: usize) -> ReadFault
        requires { Stopping (λ place. at + place < 2 ^ 64) self }
        ensures { result ≡ fault_behind at self }
    {
        match self {
            ReadFault::NoValue(place) => ReadFault::NoValue(at + place),
            ReadFault::Memory => ReadFault::Memory,
        }
    }
}

// Reads the element at a place, and keeps it once the sign behind it is there.
fn read_at<E: Elements>(text: &[u8], at: usize, elements: &mut E) -> Result<SignBehind, ReadFault>
    requires { at ≤ length text.now }
    ensures kept { MatchResult result (λ behind. Behind at (λ n. ReadsElement E.spelled E.Keeps (drop at text.now) n elements.old elements.new) behind.place) (Stopping (Behind at (NoElement E.spelled (drop at text.now)))) }
    ensures sign { IfOk result (λ behind. slice_index text.now behind.place ≡ byte_of behind.sign) }
{
    let front = match elements.read_element(&text[at..]) {
        Ok(front) => front,
        Err(fault) => return Err(fault.behind(at)),
    };
    let place = at + front.length;
    let Some(sign) = Sign::at(text, place) else {
        return Err(ReadFault::NoValue(place));
    };
    elements.keep(front.value)?;
    Ok(SignBehind { sign, place })
}

// Reads the list at the beginning of a text; answers the length of its text.
pub fn read_list<E: Elements>(text: &[u8], elements: &mut E) -> Result<usize, ReadFault>
    requires { Separate E.spelled }
    ensures { MatchResult result (λ n. ReadsList E.spelled E.Keeps text.now n elements.old elements.new) (λ f. Stopping (StopsAt (list_text E.spelled) text.now) f) }
{
    if !text.starts_with(b"[") {
        return Err(ReadFault::NoValue(0));
    }
    if text.starts_with(b"[]") {
        return Ok(2);
    }
    let mut at = 1;
    loop {
        let behind = read_at(text, at, elements)?;
        match behind.sign {
            Sign::Comma => at = behind.place + 1,
            Sign::Bracket => return Ok(behind.place + 1),
        }
    }
}
