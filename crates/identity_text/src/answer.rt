//! The text of the formats of a file.

ghost use Rattle.std.specs.Prelude.{◌≡◌, ◌∷◌, List, map, OnOk, OnErr};
ghost use Rattle.std.specs.List.{flat_map};
ghost use Rattle.std.specs.Io.KnownBytes.{Appends};
ghost use Rattle.text_output.specs.Written.{AppendsPart};
ghost use Rattle.identification.specs.declared.format.Format.{Format};
ghost use Rattle.identity_text.specs.Columns.{shown, told};
ghost use Rattle.identity_text.specs.Texts.{answer, chosen, closing, fit_text, fits_text, next_text, opening, separator};

use crate::columns::put_columns;
use crate::object::put_object;
use crate::row::{Row, row_of};
use command_line::answer_form::AnswerForm;
use identification::{Fit, Format};
use std::io::Write;
use text_output::write::{WriteFault, put};

/// Writes the first of the formats that fit, or all of them, on a line.
#[tactic(auto, using(text_output::proofs::Parts::written))]
pub fn put_answer<W: Write>(
    w: &mut W,
    formats: &[Format],
    all: bool,
    form: AnswerForm,
    fits: &[Fit],
) -> Result<(), WriteFault>
    ensures ok { OnOk result
        (Appends (W.contents w.old) (W.contents w.new) (answer all form (map (shown formats.now) fits.now))) }
    ensures err { OnErr result
        (AppendsPart (W.contents w.old) (W.contents w.new) (answer all form (map (shown formats.now) fits.now))) }
{
    put(w, opening(form, all))?;
    put_fits(w, form, formats, chosen(all, fits))?;
    put(w, closing(form, all))?;
    Ok(())
}

fn chosen(all: bool, fits: &[Fit]) -> &[Fit]
    ensures { (formats : List Format) → map (shown formats) result.now ≡ chosen all (map (shown formats) fits.now) }
{
    match fits {
        [_, ..] if !all => &fits[..1],
        _ => fits,
    }
}

fn put_fits<W: Write>(
    w: &mut W,
    form: AnswerForm,
    formats: &[Format],
    fits: &[Fit],
) -> Result<(), WriteFault>
    ensures ok { OnOk result
        (Appends (W.contents w.old) (W.contents w.new) (fits_text form (map (shown formats.now) fits.now))) }
    ensures err { OnErr result
        (AppendsPart (W.contents w.old) (W.contents w.new) (fits_text form (map (shown formats.now) fits.now))) }
{
    match fits {
        [] => Ok(()),
        [first, rest @ ..] => put_each(w, form, formats, first, rest),
    }
}

#[tactic(auto, using(text_output::proofs::Parts::written))]
fn put_each<W: Write>(
    w: &mut W,
    form: AnswerForm,
    formats: &[Format],
    first: &Fit,
    rest: &[Fit],
) -> Result<(), WriteFault>
    ensures ok { OnOk result (Appends (W.contents w.old) (W.contents w.new)
        (fits_text form (map (shown formats.now) (first.now ∷ rest.now)))) }
    ensures err { OnErr result (AppendsPart (W.contents w.old) (W.contents w.new)
        (fits_text form (map (shown formats.now) (first.now ∷ rest.now)))) }
{
    put_fit(w, form, formats, first)?;
    put_more(w, form, formats, rest)?;
    Ok(())
}

// Writes formats after others.
fn put_more<W: Write>(
    w: &mut W,
    form: AnswerForm,
    formats: &[Format],
    fits: &[Fit],
) -> Result<(), WriteFault>
    ensures ok { OnOk result (Appends (W.contents w.old) (W.contents w.new)
        (flat_map (next_text form) (map (shown formats.now) fits.now))) }
    ensures err { OnErr result (AppendsPart (W.contents w.old) (W.contents w.new)
        (flat_map (next_text form) (map (shown formats.now) fits.now))) }
{
    let mut done = 0;
    while done < fits.len() {
        put_next(w, form, formats, &fits[done])?;
        done += 1;
    }
    Ok(())
}

#[tactic(auto, using(text_output::proofs::Parts::written))]
fn put_next<W: Write>(
    w: &mut W,
    form: AnswerForm,
    formats: &[Format],
    fit: &Fit,
) -> Result<(), WriteFault>
    ensures ok { OnOk result
        (Appends (W.contents w.old) (W.contents w.new) (next_text form (shown formats.now fit.now))) }
    ensures err { OnErr result
        (AppendsPart (W.contents w.old) (W.contents w.new) (next_text form (shown formats.now fit.now))) }
{
    put(w, separator(form))?;
    put_fit(w, form, formats, fit)?;
    Ok(())
}

fn put_fit<W: Write>(
    w: &mut W,
    form: AnswerForm,
    formats: &[Format],
    fit: &Fit,
) -> Result<(), WriteFault>
    ensures ok { OnOk result
        (Appends (W.contents w.old) (W.contents w.new) (fit_text form (shown formats.now fit.now))) }
    ensures err { OnErr result
        (AppendsPart (W.contents w.old) (W.contents w.new) (fit_text form (shown formats.now fit.now))) }
{
    put_row(w, form, &row_of(formats, fit))
}

fn put_row<W: Write>(w: &mut W, form: AnswerForm, row: &Row<'_>) -> Result<(), WriteFault>
    ensures ok { OnOk result (Appends (W.contents w.old) (W.contents w.new) (fit_text form (told row.now))) }
    ensures err { OnErr result (AppendsPart (W.contents w.old) (W.contents w.new) (fit_text form (told row.now))) }
{
    match form {
        AnswerForm::Text => put_columns(w, row),
        AnswerForm::Json => put_object(w, row),
    }
}

// What is between two formats.
fn separator(form: AnswerForm) -> &'static [u8]
    ensures { result.now ≡ separator form }
{
    match form {
        AnswerForm::Text => b"\t",
        AnswerForm::Json => b",",
    }
}

fn opening(form: AnswerForm, all: bool) -> &'static [u8]
    ensures { result.now ≡ opening form all }
{
    match (form, all) {
        (AnswerForm::Json, true) => b"[",
        (AnswerForm::Text, _) | (AnswerForm::Json, false) => b"",
    }
}

fn closing(form: AnswerForm, all: bool) -> &'static [u8]
    ensures { result.now ≡ closing form all }
{
    match (form, all) {
        (AnswerForm::Json, true) => b"]\n",
        (AnswerForm::Text, _) | (AnswerForm::Json, false) => b"\n",
    }
}
