//! The list of the installed pickles, by their heads.
ghost use Rattle.std.specs.Prelude.{◌≡◌, ◌++◌, [], OnErr, OnOk, codes, map, option_map, unwrap_or};
ghost use Rattle.std.specs.Io.KnownBytes.{Appends};
ghost use Rattle.std.specs.List.{flat_map};
ghost use Rattle.std.specs.Option.{option_copied};
ghost use Rattle.jobs.specs.Chosen.{type_among};
ghost use Rattle.jobs.specs.Due.{Holds};
ghost use Rattle.jobs.specs.Formats.{DueFormats, columns, endian_member, format_line, format_object, formats_end, listed, listed_as, object_end, object_start, type_member, whole_member};
ghost use Rattle.jobs.specs.Installed.{first_unread, installed_pickle};
ghost use Rattle.pickle_heads.specs.Inside.{inside_said};
ghost use Rattle.text_output.specs.Written.{AppendsPart};

use crate::ending::Ending;
use crate::fault::FileFault;
use crate::installed::{Installed, first_unread};
use crate::opener::Opener;
use bit_space::Order;
use command_line::answer_form::AnswerForm;
use pickle_heads::{Inside, head_of};
use pickle_json::member::put_string;
use poke_batch::file_line::put_name;
use poke_batch::outcome::{Failure, Outcome};
use poke_batch::write::{WriteFault, put};
use std::io::Write;

/// Prints a line for each installed pickle: its name, the type to map, the options, and a sentence, with tabs between, or
/// in JSON an object. A pickle that can't be read has no line; the others do, before its fault is returned.
#[inline(never)]
pub fn list_formats<P: Opener, O: Write>(
    opener: &P,
    form: AnswerForm,
    out: &mut O,
) -> Result<Ending, FileFault>
    ensures { Holds (DueFormats (P.gives opener.now) form) (O.contents out.old) (O.contents out.new) result }
{
    let installed = opener.read_installed(None)?;
    match put_formats(&installed, form, out) {
        Ok(()) => formats_end(&installed),
        Err(WriteFault) => Ok(Ending::Run(Outcome::Failed(Failure::Write))),
    }
}

fn put_formats<O: Write>(
    installed: &[Installed],
    form: AnswerForm,
    out: &mut O,
) -> Result<(), WriteFault>
    ensures ok { OnOk result (Appends (O.contents out.old) (O.contents out.new)
        (flat_map (listed form) (map installed_pickle installed.now))) }
    ensures err { OnErr result (AppendsPart (O.contents out.old) (O.contents out.new)
        (flat_map (listed form) (map installed_pickle installed.now))) }
{
    for one in installed {
        put_listed(one, form, out)?;
    }
    Ok(())
}

// Writes the line or the object of a pickle, if it was read.
fn put_listed<O: Write>(one: &Installed, form: AnswerForm, out: &mut O) -> Result<(), WriteFault>
    ensures ok { OnOk result (Appends (O.contents out.old) (O.contents out.new)
        (listed form (installed_pickle one.now))) }
    ensures err { OnErr result (AppendsPart (O.contents out.old) (O.contents out.new)
        (listed form (installed_pickle one.now))) }
{
    match &one.pickle {
        Ok(pickle) => put_format(&one.name, &pickle.bytes, form, out),
        Err(_) => Ok(()),
    }
}

fn put_format<O: Write>(
    name: &[u8],
    pickle: &[u8],
    form: AnswerForm,
    out: &mut O,
) -> Result<(), WriteFault>
    ensures ok { OnOk result (Appends (O.contents out.old) (O.contents out.new)
        (listed_as form name.now pickle.now)) }
    ensures err { OnErr result (AppendsPart (O.contents out.old) (O.contents out.new)
        (listed_as form name.now pickle.now)) }
{
    match form {
        AnswerForm::Text => put_line(name, pickle, out),
        AnswerForm::Json => put_object(name, pickle, out),
    }
}

fn put_line<O: Write>(name: &[u8], pickle: &[u8], out: &mut O) -> Result<(), WriteFault>
    ensures ok { OnOk result (Appends (O.contents out.old) (O.contents out.new) (format_line name.now pickle.now)) }
    ensures err { OnErr result (AppendsPart (O.contents out.old) (O.contents out.new)
        (format_line name.now pickle.now)) }
{
    let head = head_of(name, pickle);
    put_columns(
        name,
        or_empty(head.main),
        head.options.text,
        head.sentence,
        out,
    )
}

fn or_empty(text: Option<&[u8]>) -> &[u8]
    ensures { result.now ≡ unwrap_or (option_copied text.entry) [] }
{
    match text {
        Some(text) => text,
        None => b"",
    }
}

#[tactic(auto, using(text_output::proofs::Parts::written))]
fn put_columns<O: Write>(
    name: &[u8],
    main: &[u8],
    options: &[u8],
    sentence: &[u8],
    out: &mut O,
) -> Result<(), WriteFault>
    ensures ok { OnOk result (Appends (O.contents out.old) (O.contents out.new)
        (columns name.now main.now options.now sentence.now)) }
    ensures err { OnErr result (AppendsPart (O.contents out.old) (O.contents out.new)
        (columns name.now main.now options.now sentence.now)) }
{
    put_name(out, name)?;
    put(out, b"\t")?;
    put_name(out, main)?;
    put(out, b"\t")?;
    put_name(out, options)?;
    put(out, b"\t")?;
    put_name(out, sentence)?;
    put(out, b"\n")?;
    Ok(())
}

// Writes the object of a pickle, with what applies if no type is given.
#[tactic(auto, using(text_output::proofs::Parts::written))]
fn put_object<O: Write>(name: &[u8], pickle: &[u8], out: &mut O) -> Result<(), WriteFault>
    ensures ok { OnOk result (Appends (O.contents out.old) (O.contents out.new) (format_object name.now pickle.now)) }
    ensures err { OnErr result (AppendsPart (O.contents out.old) (O.contents out.new)
        (format_object name.now pickle.now)) }
{
    let head = head_of(name, pickle);
    put_start(name, head.main, head.options.order, head.options.whole, out)?;
    put_end(type_inside(head.inside), head.sentence, out)?;
    Ok(())
}

#[tactic(auto, using(text_output::proofs::Parts::written))]
fn put_start<O: Write>(
    name: &[u8],
    main: Option<&[u8]>,
    order: Option<Order>,
    whole: bool,
    out: &mut O,
) -> Result<(), WriteFault>
    ensures ok { OnOk result (Appends (O.contents out.old) (O.contents out.new)
        (object_start name.now (option_copied main.entry) order whole)) }
    ensures err { OnErr result (AppendsPart (O.contents out.old) (O.contents out.new)
        (object_start name.now (option_copied main.entry) order whole)) }
{
    put_string(out, b"{\"name\":", name)?;
    put_type(out, b",\"type\":", main)?;
    put(out, endian_member(order))?;
    put(out, whole_member(whole))?;
    Ok(())
}

#[tactic(auto, using(text_output::proofs::Parts::written))]
fn put_end<O: Write>(inside: Option<&[u8]>, sentence: &[u8], out: &mut O) -> Result<(), WriteFault>
    ensures ok { OnOk result (Appends (O.contents out.old) (O.contents out.new)
        (object_end (option_copied inside.entry) sentence.now)) }
    ensures err { OnErr result (AppendsPart (O.contents out.old) (O.contents out.new)
        (object_end (option_copied inside.entry) sentence.now)) }
{
    put_type(out, b",\"inside\":", inside)?;
    put_string(out, b",\"description\":", sentence)?;
    put(out, b"}\n")?;
    Ok(())
}

// Writes the member with the name of a type, after its key.
fn put_type<O: Write>(out: &mut O, key: &[u8], name: Option<&[u8]>) -> Result<(), WriteFault>
    ensures ok { OnOk result (Appends (O.contents out.old) (O.contents out.new)
        (type_member key.now (option_copied name.entry))) }
    ensures err { OnErr result (AppendsPart (O.contents out.old) (O.contents out.new)
        (type_member key.now (option_copied name.entry))) }
{
    match name {
        Some(name) => put_string(out, key, name),
        None => put_null(out, key),
    }
}

#[tactic(auto, using(text_output::proofs::Parts::written))]
fn put_null<O: Write>(out: &mut O, key: &[u8]) -> Result<(), WriteFault>
    ensures ok { OnOk result (Appends (O.contents out.old) (O.contents out.new) (key.now ++ codes "null")) }
    ensures err { OnErr result (AppendsPart (O.contents out.old) (O.contents out.new) (key.now ++ codes "null")) }
{
    put(out, key)?;
    put(out, b"null")?;
    Ok(())
}

fn endian_member(order: Option<Order>) -> &'static [u8]
    ensures { result.now ≡ endian_member order }
{
    match order {
        Some(Order::Little) => b",\"endian\":\"little\"",
        Some(Order::Big) | None => b",\"endian\":\"big\"",
    }
}

fn whole_member(whole: bool) -> &'static [u8]
    ensures { result.now ≡ whole_member whole }
{
    match whole {
        true => b",\"whole\":true",
        false => b",\"whole\":false",
    }
}

fn type_inside(inside: Option<Inside<'_>>) -> Option<&[u8]>
    ensures { option_copied result ≡ type_among (option_map inside_said inside.entry) }
{
    match inside {
        Some(Inside::Type(name)) => Some(name),
        Some(Inside::Nothing(_)) | None => None,
    }
}

// How the list ends: with the fault of the first pickle that wasn't read, if there is one.
fn formats_end(installed: &[Installed]) -> Result<Ending, FileFault>
    ensures { result ≡ formats_end (map installed_pickle installed.now) }
{
    match first_unread(installed) {
        Some(fault) => Err(fault),
        None => Ok(Ending::Run(Outcome::Done)),
    }
}
