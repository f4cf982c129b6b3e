//! Writes values on one line, in any form.
ghost use Rattle.std.specs.Prelude.{◌≡◌, ℕ, ◌^◌, ◌<◌, true, false, All};
ghost use Rattle.value_store.specs.Integers.{AreIntegersOf};
ghost use Rattle.value_store.specs.Labels.{member_name};
ghost use Rattle.value_store.specs.MemberNames.{name_among};
ghost use Rattle.value_text.specs.TypedValue.{typed_shown};
ghost use Rattle.pickle_types.specs.Sound.{IsWidth};
ghost use Rattle.pickle_meaning.specs.Values.{label_of, members_of, member_count};
ghost use Rattle.value_text.specs.Puts.{Puts};
ghost use Rattle.value_text.specs.StyledValue.{written, written_line};
ghost use Rattle.value_text.specs.CutArrays.{is_cut, left_text};
ghost use Rattle.value_text.specs.PartText.{row_text, byte_text, scalar_text, number_element, more_element, integer_element, array_text, elements_text, element_text, titled_text, fields_text};
ghost use Rattle.value_text.specs.Lent.{lent_number, lent_field};

use super::cut::{is_cut, kept_count};
use super::form::Form;
use super::number::type_of;
use super::printer::Printer;
use crate::style::{Numbers, Style};
use crate::typed::{Parts, Typed};
use pickle_types::integer::IntegerType;
use std::io::Write;
use value_store::Kind;
use value_store::names::MemberNames;
use value_store::ranges::with_sign;
use value_store::scalar::Scalar;

impl<W: Write> Printer<'_, W> {
    /// Writes a value and a line feed.
    #[tactic(auto, using(crate::proofs::Puts::puts))]
    pub fn put_value_line<F: Form>(&mut self, style: &Style, value: &Typed<'_>)
        ensures { Puts W.contents self.old self.new (written_line F.notation style.now (typed_shown value.now)) }
    {
        self.put_value::<F>(style, value);
        self.put(b"\n");
    }

    /// Writes a value.
    // Inlined, so that a member that is an integer costs no call.
    #[tactic(auto, using(crate::proofs::WrittenTexts::by_kind))]
    #[inline(always)]
    #[cycle(value)]
    pub fn put_value<F: Form>(&mut self, style: &Style, value: &Typed<'_>)
        ensures { Puts W.contents self.old self.new (written F.notation style.now (typed_shown value.now)) }
    {
        match value.kind() {
            Kind::Integer => F::put_integer(self, style.numbers, type_of(value), value.number()),
            Kind::Offset => F::put_offset(
                self,
                style.numbers,
                type_of(value),
                value.unit(),
                value.number(),
            ),
            Kind::Text => F::put_string(self, value),
            Kind::Array => self.put_array::<F>(style, value),
            Kind::Struct => self.put_titled::<F>(style, value, b"struct"),
            Kind::Union => self.put_titled::<F>(style, value, b"union"),
        }
    }

    #[tactic(auto, using(crate::proofs::Puts::puts))]
    #[inline(never)]
    #[cycle(value)]
    fn put_array<F: Form>(&mut self, style: &Style, value: &Typed<'_>)
        ensures { Puts W.contents self.old self.new (array_text F.notation style.now (typed_shown value.now)) }
    {
        self.put(b"[");
        self.put_elements::<F>(style, value);
        self.put(b"]");
    }

    // Writes the elements of an array, which have no names.
    #[cycle(value)]
    fn put_elements<F: Form>(&mut self, style: &Style, value: &Typed<'_>)
        ensures { Puts W.contents self.old self.new (elements_text F.notation style.now (typed_shown value.now)) }
    {
        let elements = Parts::new(value);
        if is_cut(style.elements, elements.len()) {
            return self.put_each::<F>(style, value);
        }
        if let Some((number, bytes)) = elements.byte_row() {
            return self.put_byte_row::<F>(style.numbers, number, bytes);
        }
        match elements.row_type() {
            Some(number) => self.put_row::<F>(style, value, number),
            None => self.put_each::<F>(style, value),
        }
    }

    // Writes elements, each by its kind, and how many are left out.
    #[cycle(value)]
    fn put_each<F: Form>(&mut self, style: &Style, value: &Typed<'_>)
        ensures { Puts W.contents self.old self.new (elements_text F.notation style.now (typed_shown value.now)) }
    {
        let elements = Parts::new(value);
        let count = elements.len();
        let kept = kept_count(style.elements, count);
        // All elements are numbers or none is. Asking the first saves asking the others.
        let numbers = kept > 0 && elements.scalar(0).is_some();
        let mut first = true;
        for place in 0..kept {
            if self.failed {
                return;
            }
            let number = if numbers {
                elements.scalar(place)
            } else {
                None
            };
            if let Some(number) = number {
                self.put_number_element::<F>(style.numbers, first, number);
                first = false;
            } else if let Some(element) = elements.get(place) {
                self.put_element::<F>(style, first, &element);
                first = false;
            }
        }
        self.put_left::<F>(first, count - kept);
    }

    // Writes the elements of an array of integers of one type, which is read once.
    fn put_row<F: Form>(&mut self, style: &Style, value: &Typed<'_>, number: IntegerType)
        requires integers { AreIntegersOf number (members_of (typed_shown value.now)) }
        requires whole { is_cut style.now.elements (member_count (members_of (typed_shown value.now))) ≡ false }
        ensures { Puts W.contents self.old self.new (elements_text F.notation style.now (typed_shown value.now)) }
    {
        let elements = Parts::new(value);
        let mut first = true;
        for place in 0..elements.len() {
            if self.failed {
                return;
            }
            if let Some(element) = elements.get(place) {
                self.put_item::<F>(style.numbers, first, number, element.number());
                first = false;
            }
        }
    }

    // Writes elements of at most 8 bits each, from bytes that hold their bits.
    fn put_byte_row<F: Form>(&mut self, numbers: Numbers, number: IntegerType, bytes: &[u8])
        requires width { IsWidth number }
        requires below { All (λ byte. byte < 2 ^ number.width) bytes.now }
        ensures { Puts W.contents self.old self.new (row_text (byte_text F.notation numbers number) true bytes.now) }
    {
        if F::has_plain_bytes(numbers, number) {
            return self.put_plain_bytes::<F>(bytes);
        }
        let mut first = true;
        for byte in bytes {
            if self.failed {
                return;
            }
            self.put_item::<F>(numbers, first, number, with_sign(number, u64::from(*byte)));
            first = false;
        }
    }

    // Writes bytes, all in one way.
    #[inline(never)]
    fn put_plain_bytes<F: Form>(&mut self, bytes: &[u8])
        ensures { Puts W.contents self.old self.new (row_text F.plain_byte true bytes.now) }
    {
        let mut first = true;
        for byte in bytes {
            if self.failed {
                return;
            }
            F::put_plain_byte(self, first, *byte);
            first = false;
        }
    }

    // Writes an integer of a row.
    #[tactic(auto, using(crate::proofs::Puts::puts))]
    #[inline(always)]
    fn put_item<F: Form>(&mut self, numbers: Numbers, first: bool, ty: IntegerType, number: i128)
        ensures { Puts W.contents self.old self.new (integer_element F.notation numbers first ty number) }
    {
        self.put_comma(first);
        F::put_integer(self, numbers, ty, number);
    }

    // Writes an element that is an integer or an offset.
    #[tactic(auto, using(crate::proofs::Puts::puts))]
    #[inline(always)]
    fn put_number_element<F: Form>(&mut self, numbers: Numbers, first: bool, number: Scalar)
        ensures { Puts W.contents self.old self.new (number_element F.notation numbers first number) }
    {
        self.put_comma(first);
        self.put_scalar::<F>(numbers, number);
    }

    #[inline(always)]
    fn put_scalar<F: Form>(&mut self, numbers: Numbers, number: Scalar)
        ensures { Puts W.contents self.old self.new (scalar_text F.notation numbers number) }
    {
        match number {
            Scalar::Integer(number, ty) => F::put_integer(self, numbers, ty, number),
            Scalar::Offset(magnitude, ty, unit) => F::put_offset(
                self, numbers, ty, unit, magnitude,
            ),
        }
    }

    #[tactic(auto, using(crate::proofs::Puts::puts))]
    #[inline(always)]
    #[cycle(value)]
    fn put_element<F: Form>(&mut self, style: &Style, first: bool, element: &Typed<'_>)
        ensures { Puts W.contents self.old self.new
            (element_text F.notation style.now first (typed_shown element.now)) }
    {
        self.put_comma(first);
        self.put_value::<F>(style, element);
    }

    // Writes how many elements are left out, if any are.
    #[tactic(auto, using(crate::proofs::Puts::puts))]
    #[inline(always)]
    fn put_left<F: Form>(&mut self, first: bool, left: usize)
        ensures { Puts W.contents self.old self.new (left_text (more_element F.notation first) left) }
    {
        if left == 0 {
            return;
        }
        self.put_comma(first);
        F::put_more(self, left);
    }

    // Writes a struct or a union.
    #[tactic(auto, using(crate::proofs::Puts::puts))]
    #[inline(never)]
    #[cycle(value)]
    fn put_titled<F: Form>(&mut self, style: &Style, value: &Typed<'_>, sort: &[u8])
        ensures { Puts W.contents self.old self.new
            (titled_text F.notation style.now sort.now (typed_shown value.now)) }
    {
        let names = value.names();
        F::put_title(self, sort, names.title);
        F::put_opening(self);
        self.put_fields::<F>(style, value, names.members);
        self.put(b"}");
    }

    // Writes the fields of a struct or the alternative of a union, which have these names.
    #[cycle(value)]
    fn put_fields<F: Form>(&mut self, style: &Style, value: &Typed<'_>, names: MemberNames<'_>)
        requires names { (place : ℕ) →
            name_among names place ≡ member_name (label_of (typed_shown value.now)) place }
        ensures { Puts W.contents self.old self.new (fields_text F.notation style.now (typed_shown value.now)) }
    {
        let fields = Parts::new(value);
        let mut first = true;
        for place in 0..fields.len() {
            if self.failed {
                return;
            }
            if let Some(number) = fields.scalar(place) {
                self.put_number_field::<F>(style.numbers, first, names.get(place), place, number);
                first = false;
            } else if let Some(field) = fields.get(place) {
                self.put_field::<F>(style, first, names.get(place), place, &field);
                first = false;
            }
        }
    }

    // Writes a field that is an integer or an offset.
    #[tactic(auto, using(crate::proofs::Puts::puts))]
    #[inline(always)]
    fn put_number_field<F: Form>(
        &mut self,
        numbers: Numbers,
        first: bool,
        name: Option<&[u8]>,
        place: usize,
        number: Scalar,
    )
        ensures { Puts W.contents self.old self.new
            (lent_number F.notation numbers first name.entry place number) }
    {
        F::put_key(self, first, name, place);
        self.put_scalar::<F>(numbers, number);
    }

    // Writes the field at a place of a struct, or the alternative of a union.
    #[tactic(auto, using(crate::proofs::Puts::puts))]
    #[inline(always)]
    #[cycle(value)]
    fn put_field<F: Form>(
        &mut self,
        style: &Style,
        first: bool,
        name: Option<&[u8]>,
        place: usize,
        field: &Typed<'_>,
    )
        ensures { Puts W.contents self.old self.new
            (lent_field F.notation style.now first name.entry place field.now) }
    {
        F::put_key(self, first, name, place);
        self.put_value::<F>(style, field);
    }
}
