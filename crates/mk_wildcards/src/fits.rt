//! Whether a name fits a pattern, in steps that are at most as many as its bytes for each element.
ghost use Rattle.std.specs.Prelude.{◌≡◌, ◌<◌, ◌≤◌, length, drop};
ghost use Rattle.mk_wildcards.specs.Fits.{some_end, fits, is_hidden, begins_with_dot, fits_name};
ghost use Rattle.mk_wildcards.specs.Places.{takes, is_run, has_failed, left, Later, IsShorter};

use crate::element::Element;

/// Where the elements before a `*` end: with the name, nowhere, or at a place where the `*` and what stands behind it begin.
#[derive(Clone, Copy)]
enum Place<'e, 'n> {
    Ends,
    Fails,
    Run(&'e [Element], &'n [u8]),
}

/// Whether the element, which is no `*`, takes the byte.
fn takes(element: &Element, byte: u8) -> bool
    ensures { result ≡ takes element.now byte }
{
    match element {
        Element::Byte(one) => *one == byte,
        Element::AnyByte => true,
        Element::OneOf(found) => found.takes(byte),
        Element::AnyRun => false,
    }
}

fn is_run(element: &Element) -> bool
    ensures { result ≡ is_run element.now }
{
    matches!(element, Element::AnyRun)
}

/// Lets each element take a byte of the name, up to a `*`.
fn stretch<'e, 'n>(elements: &'e [Element], name: &'n [u8]) -> Place<'e, 'n>
    ensures value { left result ≡ fits elements.now name.now }
    ensures later { Later result elements.now name.now }
    ensures shorter { IsShorter result elements.now }
{
    let mut now = elements;
    let mut rest = name;
    while let Some((element, more)) = now.split_first() {
        if is_run(element) {
            return Place::Run(more, rest);
        }
        let Some((byte, behind)) = rest.split_first() else {
            return Place::Fails;
        };
        if !takes(element, *byte) {
            return Place::Fails;
        }
        now = more;
        rest = behind;
    }
    if rest.is_empty() {
        Place::Ends
    } else {
        Place::Fails
    }
}

fn has_failed(place: &Place<'_, '_>) -> bool
    ensures { result ≡ has_failed place.now }
{
    matches!(place, Place::Fails)
}

/// The same at the first place of the name where the elements reach their `*`, or end with it. A later place would leave less to what
/// stands behind that `*`, so none is tried again.
fn first_stretch<'e, 'n>(elements: &'e [Element], name: &'n [u8]) -> Place<'e, 'n>
    ensures value { left result ≡ some_end (fits elements.now) name.now }
    ensures shorter { IsShorter result elements.now }
{
    let mut rest = name;
    while let Some((_, behind)) = rest.split_first() {
        let place = stretch(elements, rest);
        if !has_failed(&place) {
            return place;
        }
        rest = behind;
    }
    stretch(elements, rest)
}

fn fits(elements: &[Element], name: &[u8]) -> bool
    ensures { result ≡ fits elements.now name.now }
{
    let mut place = stretch(elements, name);
    while let Place::Run(more, rest) = place {
        place = first_stretch(more, rest);
    }
    !has_failed(&place)
}

fn is_hidden(name: &[u8]) -> bool
    ensures { result ≡ is_hidden name.now }
{
    matches!(name.split_first(), Some((b'.', _)))
}

fn begins_with_dot(elements: &[Element]) -> bool
    ensures { result ≡ begins_with_dot elements.now }
{
    matches!(elements.split_first(), Some((Element::Byte(b'.'), _)))
}

/// Whether the name of a file fits the pattern of these elements.
pub fn fits_name(elements: &[Element], name: &[u8]) -> bool
    ensures { result ≡ fits_name elements.now name.now }
{
    (!is_hidden(name) || begins_with_dot(elements)) && fits(elements, name)
}
