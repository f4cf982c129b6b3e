//! Sentences about types that the type checker refuses.

use crate::braces::{brace_around, integral_brace};
use crate::clause::{Declared, Finding, clause_finding};
use crate::foreign::of_foreign;
use crate::located::{Located, LocatedField};
use crate::names::last_type;
use crate::search::first_declaration;
use crate::sentence::{Part, sentence};
use pickle_source::anatomy::{FieldParts, base, declaration, opening_brace};
use pickle_source::line_column::place_behind;
use pickle_source::near::nearest;
use pickle_source::note::Note;
use pickle_source::script::{Script, TokenRange, bytes_between};
use pickle_source::site::Purpose;
use pickle_source::text::Text;
use pickle_syntax::tree::{Form, Pickle, Reference};
use pickle_types::fault::FaultKind;
use pickle_types::refused::{Refused, RefusedPart};
use std::alloc::{AllocError, Global};

/// What the fields of an integral struct may be.
const IN_INTEGRAL: &str =
    "a field of an integral struct is an integer, an offset or an integral struct";

/// What is wrong with the types of a declaration, counted from 1.
pub fn types_note(
    alloc: Global,
    script: &Script<'_>,
    kind: FaultKind,
    number: usize,
) -> Result<Note, AllocError> {
    let finding = finding(alloc, script, kind, number)?;
    let (at, behind) = script.bounds(finding.part);
    Ok(Note {
        at,
        length: behind.saturating_sub(at),
        sentence: finding.sentence,
        help: finding.help,
    })
}

fn finding(
    alloc: Global,
    script: &Script<'_>,
    kind: FaultKind,
    number: usize,
) -> Result<Finding, AllocError> {
    let whole = declaration(script, number);
    let name = TokenRange {
        first: whole.first.saturating_add(1),
        end: whole.first.saturating_add(2),
    };
    if kind == FaultKind::DuplicateType {
        return declared_twice(alloc, script, name);
    }
    let Some(tree) = script.tree(alloc) else {
        return broken_rule(alloc, kind, name);
    };
    let Some(refused) = Refused::find(alloc, &tree)? else {
        return broken_rule(alloc, kind, name);
    };
    refused_finding(alloc, script, &tree, &refused, whole)
}

/// What is wrong with a declaration that is refused. `whole` has its tokens.
fn refused_finding<'a, 't>(
    alloc: Global,
    script: &'a Script<'t>,
    tree: &'a Pickle<'t>,
    refused: &'a Refused<'t>,
    whole: TokenRange,
) -> Result<Finding, AllocError> {
    match locate_part(script, tree, refused, whole) {
        Some(located) => located_finding(&Declared {
            alloc,
            script,
            refused,
            whole,
            located,
        }),
        None => broken_rule(alloc, refused.fault.kind, whole),
    }
}

/// The part of a declaration that is refused. `whole` has its tokens.
fn locate_part<'p, 't>(
    script: &Script<'_>,
    tree: &'p Pickle<'t>,
    refused: &Refused<'_>,
    whole: TokenRange,
) -> Option<Located<'p, 't>> {
    let declaration = tree.declarations.get(refused.fault.decl.saturating_sub(1))?;
    let tokens = TokenRange {
        first: whole.first.saturating_add(3),
        end: whole.end,
    };
    Located::of(script, &declaration.form, tokens, refused.site())
}

/// What is wrong with the part that is refused.
fn located_finding(declared: &Declared<'_, '_>) -> Result<Finding, AllocError> {
    let site = declared.refused.site();
    let purpose = match site.part {
        RefusedPart::Type => return of_type(declared),
        RefusedPart::Widths(width) => return of_widths(declared, width),
        RefusedPart::Name => return of_name(declared),
        RefusedPart::Place(wide) => return of_place(declared, wide),
        RefusedPart::Label => Purpose::Label,
        RefusedPart::Condition => Purpose::Condition,
        RefusedPart::Constraint => Purpose::Constraint,
        RefusedPart::Bound => Purpose::Bound,
    };
    match declared.located.expression(declared.script, site.part) {
        Some((part, expression)) => clause_finding(declared, purpose, part, expression),
        None => rule_finding(declared, declared.located.tokens),
    }
}

/// The finding for a part about which only the rule that it breaks is reported.
pub fn rule_finding(declared: &Declared<'_, '_>, part: TokenRange) -> Result<Finding, AllocError> {
    broken_rule(declared.alloc, declared.kind(), part)
}

/// The rule that some tokens break.
fn broken_rule(alloc: Global, kind: FaultKind, part: TokenRange) -> Result<Finding, AllocError> {
    let rule = Text::new(alloc).say(rule_of(kind).as_bytes())?;
    Ok(Finding::of(part, rule, None))
}

/// The finding for a declared name that is declared before.
fn declared_twice(
    alloc: Global,
    script: &Script<'_>,
    name: TokenRange,
) -> Result<Finding, AllocError> {
    let word = Part::Word(script.slice(name));
    let text = match earlier_declaration(script, name) {
        Some(token) => {
            let line = Part::Number(line_of(script, token));
            sentence(alloc, b"`$0` is declared in line $1 already", &[word, line])?
        }
        None => sentence(alloc, b"`$0` is predeclared", &[word])?,
    };
    let help = Text::new(alloc).say(b"choose another name for this type")?;
    Ok(Finding::of(name, text, Some(help)))
}

fn line_of(script: &Script<'_>, token: usize) -> usize {
    place_behind(bytes_between(script.bytes, 0, script.first(token))).line
}

/// The earlier token that declares a name.
fn earlier_declaration(script: &Script<'_>, name: TokenRange) -> Option<usize> {
    let before = TokenRange {
        first: 0,
        end: name.first,
    };
    first_declaration(script, before, script.slice(name))
}

/// What is wrong with a type, apart from its fields and expressions.
fn of_type(declared: &Declared<'_, '_>) -> Result<Finding, AllocError> {
    match declared.kind() {
        FaultKind::TooDeep => broken_rule(declared.alloc, FaultKind::TooDeep, deep_part(declared)),
        FaultKind::NotHere => {
            let head = TokenRange::single(declared.located.tokens.first);
            let text = Text::new(declared.alloc).say(b"a union has at least one alternative")?;
            Ok(Finding::of(head, text, None))
        }
        _ => of_base(declared, base_of(declared)),
    }
}

/// The name of a type that is too deep for its place, or that of the declaration.
fn deep_part(declared: &Declared<'_, '_>) -> TokenRange {
    match declared.located.form {
        Form::Reference(_) => declared.located.tokens,
        _ => declared.name(),
    }
}

/// The tokens of a type without braces, or of the integer type of an integral struct.
fn base_of(declared: &Declared<'_, '_>) -> TokenRange {
    let tokens = declared.located.tokens;
    match declared.located.form {
        Form::Integral(_, _) => integral_reference(declared.script, tokens),
        _ => tokens,
    }
}

/// What is wrong with the widths of an integral struct's fields, which have `width` bits together.
fn of_widths(declared: &Declared<'_, '_>, width: u128) -> Result<Finding, AllocError> {
    let reference = integral_reference(declared.script, declared.located.tokens);
    let text = sentence(
        declared.alloc,
        b"the widths of this struct's fields don't add up to `$0`",
        &[Part::Word(declared.script.slice(reference))],
    )?;
    let words: &[u8] = match width {
        0 => return Ok(Finding::of(reference, text, None)),
        1..=64 => b"the width of the fields together is $0",
        _ => b"the width of the fields together is $0, and an integral struct has at most 64 bits",
    };
    let width = Part::Number(usize::try_from(width).unwrap_or(usize::MAX));
    let help = sentence(declared.alloc, words, &[width])?;
    Ok(Finding::of(reference, text, Some(help)))
}

/// The integer type of an integral struct.
fn integral_reference(script: &Script<'_>, form: TokenRange) -> TokenRange {
    let first = form.first.saturating_add(1);
    let end = match script.text(first) {
        b"int<" | b"uint<" => first.saturating_add(3),
        _ => first.saturating_add(1),
    };
    TokenRange { first, end }
}

/// What is wrong with a type other than a struct or union, or with the integer type of an integral struct.
fn of_base(declared: &Declared<'_, '_>, base: TokenRange) -> Result<Finding, AllocError> {
    let (alloc, script) = (declared.alloc, declared.script);
    match declared.kind() {
        FaultKind::UnknownType => unknown_type(alloc, script, name_of(script, base)),
        FaultKind::Width => {
            let part = number_of(script, base, declared.located.form);
            let words: &[u8] = if script.text_before(part.first) == b",".as_slice() {
                b"a unit has 1 to 4294967295 bits, not $0"
            } else {
                b"an integer has 1 to 64 bits, not $0"
            };
            let text = sentence(alloc, words, &[Part::Whole(script.slice(part))])?;
            Ok(Finding::of(part, text, None))
        }
        FaultKind::Mismatch => {
            let part = name_of(script, base);
            let text = sentence(
                alloc,
                b"an integer type must come here, and `$0` isn't one",
                &[Part::Word(script.slice(part))],
            )?;
            Ok(Finding::of(part, text, None))
        }
        kind => broken_rule(alloc, kind, base),
    }
}

/// The name in a type, or all of the type.
pub fn name_of(script: &Script<'_>, base: TokenRange) -> TokenRange {
    match (base.first..base.end).find(|token| script.is_name(*token)) {
        Some(first) => TokenRange {
            first,
            end: first.saturating_add(1),
        },
        None => base,
    }
}

/// The number of a type that is out of range, or all of the type.
fn number_of(script: &Script<'_>, base: TokenRange, form: &Form<'_>) -> TokenRange {
    let first = match form {
        Form::Offset(reference, _) if is_in_range(reference) => base.end.saturating_sub(2),
        _ => base.first,
    };
    match (first..base.end).find(|token| script.is_number(*token)) {
        Some(number) => TokenRange::single(number),
        None => base,
    }
}

/// Whether the width of an integer type is one that integers have.
fn is_in_range(reference: &Reference<'_>) -> bool {
    match reference {
        Reference::Int(n) | Reference::Uint(n) => 1 <= n.value && n.value <= 64,
        Reference::Named(_) => true,
    }
}

/// The finding for a name that no declared type has.
pub fn unknown_type(
    alloc: Global,
    script: &Script<'_>,
    name: TokenRange,
) -> Result<Finding, AllocError> {
    let word = Part::Word(script.slice(name));
    let text = sentence(alloc, b"no type `$0` is declared before this", &[word])?;
    let help = unknown_type_help(alloc, script, name)?;
    Ok(Finding::of(name, text, help))
}

/// What to write instead of a name that no declared type has.
fn unknown_type_help(
    alloc: Global,
    script: &Script<'_>,
    name: TokenRange,
) -> Result<Option<Text>, AllocError> {
    let word = script.slice(name);
    let mut known = declared_before(alloc, script, name)?;
    known.extend_from_slice(PREDECLARED.as_slice())?;
    let behind = TokenRange {
        first: name.end,
        end: script.len(),
    };
    let later = first_declaration(script, behind, word);
    let help = match (of_foreign(word), later) {
        _ if script.text_before(name.first) == b"struct".as_slice() => {
            Text::new(alloc).say(NAMELESS.as_bytes())?
        }
        _ if is_type_behind(script, name, known.as_slice()) => turned_round(alloc, script, name)?,
        (Some(help), _) => Text::new(alloc).say(help.as_bytes())?,
        (None, Some(token)) => sentence(
            alloc,
            b"it is declared in line $0: move that declaration before this one",
            &[Part::Number(line_of(script, token))],
        )?,
        (None, None) => return near_type(alloc, script, name, known.as_slice()),
    };
    Ok(Some(help))
}

/// What to write for a struct with a name before its brace.
const NAMELESS: &str =
    "write `struct { .. }`, without the name: a field's name comes after the brace, as `struct { .. } x;`";

/// The first token after a name, or after a `:` that comes after the name.
fn token_behind(script: &Script<'_>, name: TokenRange) -> usize {
    if script.text(name.end) == b":".as_slice() {
        name.end.saturating_add(1)
    } else {
        name.end
    }
}

/// Whether a type comes after a name, where the name of a field would be.
fn is_type_behind(script: &Script<'_>, name: TokenRange, known: &[&[u8]]) -> bool {
    let behind = token_behind(script, name);
    let ends = script.text(behind.saturating_add(1)) == b";".as_slice();
    ends && known.contains(&script.text(behind))
}

/// The help for a field with its name before its type.
fn turned_round(alloc: Global, script: &Script<'_>, name: TokenRange) -> Result<Text, AllocError> {
    let form = Part::Whole(script.text(token_behind(script, name)));
    let name = Part::Whole(script.slice(name));
    sentence(
        alloc,
        b"the type comes before the name: write `$0 $1;`",
        &[form, name],
    )
}

fn near_type(
    alloc: Global,
    script: &Script<'_>,
    name: TokenRange,
    known: &[&[u8]],
) -> Result<Option<Text>, AllocError> {
    if is_own(script, name) {
        return Ok(Some(Text::new(alloc).say(b"a type doesn't contain itself")?));
    }
    if let Some(width) = Width::of(script.slice(name)) {
        return Ok(Some(width.help(alloc)?));
    }
    match nearest(alloc, script.slice(name), known)? {
        Some(near) => Ok(Some(sentence(alloc, b"is `$0` meant?", &[Part::Word(near)])?)),
        None if is_alone(script, name) => Ok(Some(typeless_help(alloc, script, name)?)),
        None => Ok(None),
    }
}

/// Whether a name is all that a field has.
fn is_alone(script: &Script<'_>, name: TokenRange) -> bool {
    let begins = matches!(script.text_before(name.first), b"{" | b";");
    begins && script.text(name.end) == b";".as_slice()
}

/// The help for a field without a type.
fn typeless_help(alloc: Global, script: &Script<'_>, name: TokenRange) -> Result<Text, AllocError> {
    sentence(
        alloc,
        b"if this is a field's name, write its type before it, as `byte $0;`",
        &[Part::Whole(script.slice(name))],
    )
}

/// An integer type that is named as in other languages: `uint12`, `INT24`, `u48`.
#[derive(Clone, Copy)]
struct Width {
    signed: bool,
    bits: u64,
}

impl Width {
    /// The type that a word names so.
    fn of(word: &[u8]) -> Option<Width> {
        let first = word.iter().position(|byte| byte.is_ascii_digit())?;
        let signed = match bytes_between(word, 0, first) {
            b"uint" | b"unit" | b"Uint" | b"UInt" | b"UINT" | b"u" | b"U" | b"b" => false,
            b"int" | b"Int" | b"INT" | b"i" | b"s" => true,
            _ => return None,
        };
        let digits = str::from_utf8(bytes_between(word, first, word.len())).ok()?;
        Some(Width {
            signed,
            bits: digits.parse().ok()?,
        })
    }

    /// What to write for it. An integer of more than 64 bits is bytes.
    fn help(self, alloc: Global) -> Result<Text, AllocError> {
        let (words, number): (&[u8], u64) = match self.bits {
            bits @ 1..=64 if self.signed => (b"write `int<$0>`", bits),
            bits @ 1..=64 => (b"write `uint<$0>`", bits),
            bits if bits % 8 == 0 && bits != 0 => {
                (
                    b"an integer has at most 64 bits: write `byte[$0]`",
                    bits / 8,
                )
            }
            _ => (b"an integer has 1 to 64 bits, as `uint<12>`", 0),
        };
        sentence(alloc, words, &[Part::Number(number as usize)])
    }
}

/// Whether a name is that of the declaration that it is in.
fn is_own(script: &Script<'_>, name: TokenRange) -> bool {
    earlier_declaration(script, name).is_some()
}

/// The names that are declared before a token.
pub fn declared_before<'t>(
    alloc: Global,
    script: &Script<'t>,
    name: TokenRange,
) -> Result<Vec<&'t [u8]>, AllocError> {
    let mut known = Vec::new(alloc);
    for token in 0..name.first {
        if script.text_before(token) == b"type".as_slice() {
            known.push(script.text(token))?;
        }
    }
    Ok(known)
}

/// The predeclared types.
static PREDECLARED: [&[u8]; 18] = [
    b"bit", b"nibble", b"byte", b"char", b"short", b"ushort", b"int", b"uint", b"long", b"ulong",
    b"int8", b"int16", b"int32", b"int64", b"uint8", b"uint16", b"uint32", b"uint64",
];

/// Whether a word is the name of a predeclared type.
pub fn is_predeclared(word: &[u8]) -> bool {
    PREDECLARED.iter().any(|name| *name == word)
}

/// What is wrong with the name of a field.
fn of_name(declared: &Declared<'_, '_>) -> Result<Finding, AllocError> {
    let Some(field) = declared.located.field else {
        return rule_finding(declared, declared.located.tokens);
    };
    let name = field.parts.name;
    let text = sentence(
        declared.alloc,
        b"this struct or union has a field `$0` already",
        &[Part::Word(declared.script.slice(name))],
    )?;
    let help = Text::new(declared.alloc).say(b"choose another name for this one")?;
    Ok(Finding::of(name, text, Some(help)))
}

/// The finding for the part of a field that may not be where it is. `wide` says whether its type has a width in bits.
fn of_place(declared: &Declared<'_, '_>, wide: bool) -> Result<Finding, AllocError> {
    let (alloc, script) = (declared.alloc, declared.script);
    let Some(field) = declared.located.field else {
        return rule_finding(declared, declared.located.tokens);
    };
    let (part, words) = misplaced_part(&field, wide);
    let help = misplaced_help(alloc, script, &field.parts, part)?;
    let text = Text::new(alloc).say(words.as_bytes())?;
    Ok(Finding::of(part, text, help))
}

/// What to write instead of a part of a field that may not be there.
fn misplaced_help(
    alloc: Global,
    script: &Script<'_>,
    parts: &FieldParts,
    part: TokenRange,
) -> Result<Option<Text>, AllocError> {
    let help = if part == parts.order {
        order_help(alloc, script, parts)?
    } else if part == parts.condition && is_in_union(script, parts.whole.first) {
        condition_help(alloc, script, parts)?
    } else if part == parts.condition {
        Text::new(alloc).say(b"leave it out: an integral struct has all of its fields")?
    } else if part == parts.label {
        Text::new(alloc).say(b"leave it out, or write a `struct`, whose fields have labels")?
    } else {
        return Ok(None);
    };
    Ok(Some(help))
}

/// The help for a byte order where none may be.
fn order_help(alloc: Global, script: &Script<'_>, parts: &FieldParts) -> Result<Text, AllocError> {
    let order = Part::Whole(script.slice(parts.order));
    let base = base(script, parts.form);
    if let Some(brace) = integral_brace(script, parts.whole.first) {
        return integral_order_help(alloc, script, order, brace);
    }
    if script.text(parts.form.first) == b"string".as_slice() {
        return Text::new(alloc).say(b"leave it out: the bytes of a string have no order");
    }
    if base.end < parts.form.end && opening_brace(script, base).is_none() {
        let suffix = TokenRange {
            first: base.end,
            end: parts.name.end,
        };
        let base = Part::Whole(script.slice(base));
        let suffix = Part::Whole(script.slice(suffix));
        return sentence(
            alloc,
            b"write `struct { $0 $1 x; }$2;`",
            &[order, base, suffix],
        );
    }
    Text::new(alloc).say(b"write it before the fields inside")
}

/// The help for an alternative with a condition.
fn condition_help(
    alloc: Global,
    script: &Script<'_>,
    parts: &FieldParts,
) -> Result<Text, AllocError> {
    let named = TokenRange {
        first: parts.whole.first,
        end: parts.name.end,
    };
    let named = Part::Whole(script.slice(named));
    let condition = Part::Whole(script.slice(parts.condition));
    let constraint = Part::Whole(script.slice(parts.constraint));
    let words: &[u8] = if parts.constraint.first < parts.constraint.end {
        b"write it as a constraint: `$0 : ($2) && ($1);`"
    } else {
        b"write it as a constraint: `$0 : $1;`"
    };
    sentence(alloc, words, &[named, condition, constraint])
}

/// Whether the innermost braces around a token are those of a union.
fn is_in_union(script: &Script<'_>, token: usize) -> bool {
    match brace_around(script, token) {
        Some(brace) => script.text_before(brace) == b"union".as_slice(),
        None => false,
    }
}

/// The help for a byte order inside an integral struct with its `{` at `brace`.
fn integral_order_help(
    alloc: Global,
    script: &Script<'_>,
    order: Part<'_>,
    brace: usize,
) -> Result<Text, AllocError> {
    if brace_around(script, brace).is_some() {
        return Text::new(alloc).say(
            b"leave it out here, and write it before the `struct` around it",
        );
    }
    let name = script.text(last_type(script, brace).saturating_add(1));
    sentence(
        alloc,
        b"leave it out here, and write it where the type is used, as `$0 $1 x;`",
        &[order, Part::Whole(name)],
    )
}

/// What may not be in a field. `wide` says whether its type has a width in bits.
fn misplaced_part(field: &LocatedField<'_, '_>, wide: bool) -> (TokenRange, &'static str) {
    let parts = field.parts;
    let integral = matches!(field.around, Form::Integral(_, _));
    if integral && !wide {
        return (parts.form, IN_INTEGRAL);
    }
    if matches!(field.around, Form::Union(_)) && field.field.name.is_none() {
        return (parts.form, "an alternative of a union has a name");
    }
    if field.field.order.is_some() && (integral || !wide) {
        return (
            parts.order,
            "`big` and `little` come only before integers, offsets and integral structs, and not inside an integral struct",
        );
    }
    if parts.label.first < parts.label.end {
        return (
            parts.label,
            "a field of a union, of a pinned or of an integral struct has no label",
        );
    }
    (
        parts.condition,
        "a field of a union or of an integral struct has no condition",
    )
}

/// The rule that a declaration breaks.
fn rule_of(kind: FaultKind) -> &'static str {
    match kind {
        FaultKind::UnknownType => "a type is named that isn't declared before",
        FaultKind::DuplicateType => "the name of this type is already used",
        FaultKind::UnknownName => "no field of this name is seen here",
        FaultKind::DuplicateField => "two fields have one name",
        FaultKind::Mismatch => "an expression or a type isn't of the kind that its place asks for",
        FaultKind::Width =>
            "a width is outside of 1 to 64 bits, or a unit outside of 1 to 4294967295 bits",
        FaultKind::IntegralWidths =>
            "the widths of an integral struct's fields don't add up to its own",
        FaultKind::NotHere => IN_INTEGRAL,
        FaultKind::TooDeep =>
            "this type has more than 64 levels, with the types opened that it names",
        FaultKind::Memory => "there was no memory",
    }
}
