//! What a job requests of a mapping.
ghost use Rattle.std.specs.Prelude.{◌≡◌, false};
ghost use Rattle.jobs.specs.Aims.{IsAskAt, aim_of, dims, look_of, of_mapping, of_type, plain_request, settled_terms};

use crate::growth::limit_over;
use bit_space::Order;
use command_line::color::Color;
use command_line::fault_form::FaultForm;
use command_line::limit::Limit;
use command_line::request::{Form, Over, Request};
use command_line::start::Start;
use poke_batch::ask::Ask;
use poke_batch::mode::Mode;
use poke_batch::style::Look;
use poke_batch::terms::Terms;

/// What a job requests of a mapping, over one file or many.
#[derive(Clone, Copy)]
pub struct Mapping<'a> {
    /// The name of the type to map.
    pub name: &'a [u8],
    pub start: Start,
    /// After how many bytes from there the file ends. `None` is its own end.
    pub window: Option<u64>,
    pub order: Order,
    /// The most steps.
    pub limit: Limit,
    pub mode: Mode,
    /// What each value must meet, and how it looks.
    pub terms: &'a Terms,
    /// How a refusal or a fault of one file among many is written.
    pub faults: FaultForm,
    /// The most bytes of a file without a length that are read into memory. `None` opens no such file.
    pub spool: Option<u64>,
    /// Whether a terminal shows how much is done.
    pub progress: bool,
    /// Whether what is written of one file among many is written before the next file is mapped.
    pub flush: bool,
}

impl<'a> Mapping<'a> {
    /// The mapping of a type over one file, from the bit `at` on.
    pub fn from_bit(
        name: &'a str,
        at: u64,
        order: Order,
        limit: u64,
        mode: Mode,
        terms: &'a Terms,
    ) -> Mapping<'a>
        ensures request { of_mapping result ≡ plain_request name.now at order limit mode terms.now }
        ensures plain { (result.progress ≡ false) × (result.flush ≡ false) }
    {
        Mapping {
            name: name.as_bytes(),
            start: Start::Bit(at),
            window: None,
            order,
            limit: Limit::Steps(limit),
            mode,
            terms,
            faults: FaultForm::Text,
            spool: None,
            progress: false,
            flush: false,
        }
    }

    /// The mapping of a type that a request says, in a byte order. A value that is shown to the eye has no mode: its look
    /// replaces it.
    pub fn of_type(request: &'a Request, name: &'a [u8], order: Order) -> Mapping<'a>
        ensures request { of_mapping result ≡ of_type request.now name.now order request.now.terms }
        ensures shows { result.progress ≡ request.now.progress }
    {
        let mode = match request.form {
            Form::Printed { mode, .. } => mode,
            Form::Shown { .. } => Mode::Flat,
        };
        Mapping {
            name,
            start: request.start,
            window: request.window,
            order,
            limit: request.limit,
            mode,
            terms: &request.terms,
            faults: request.faults(),
            spool: request.spool,
            progress: request.progress,
            flush: matches!(request.over, Over::Files { flush: true, .. }),
        }
    }

    /// What the mapping of a file of so many bytes is given, from a bit on.
    pub fn ask_at(&self, start: u64, length: u64) -> Ask<'a>
        ensures { IsAskAt (aim_of self.now) start length result }
    {
        Ask {
            name: self.name,
            start,
            order: self.order,
            limit: limit_over(self.limit, length),
            mode: self.mode,
        }
    }
}

/// Settles the terms of a request: whether its value must end where the file does, which the head of the pickle may
/// want, and how a value looks that is shown to the eye.
pub fn settle_terms(terms: &mut Terms, form: Form, whole: bool)
    ensures { terms.new ≡ settled_terms form whole terms.old }
{
    terms.whole |= whole;
    if let Form::Shown {
        color,
        depth,
        numbers,
        beside,
    } = form
    {
        terms.look = Some(Look {
            numbers,
            chars: terms.style.chars,
            elements: terms.style.elements,
            depth,
            dim: dims(color),
            beside,
        });
    }
}

// Whether types are dimmed. `Auto` is the program's to settle, which knows the terminal.
fn dims(color: Color) -> bool
    ensures { result ≡ dims color }
{
    matches!(color, Color::Always)
}
