//! Writes what is around the cells of a record.
ghost use Rattle.value_text.specs.Puts.{Puts};
ghost use Rattle.csv_text.specs.Records.{separator, record_end};

use std::io::Write;
use value_text::print::printer::Printer;

/// Puts what is before a cell: a comma, but not before the first.
pub fn put_separator<W: Write>(printer: &mut Printer<'_, W>, first: bool)
    ensures { Puts W.contents printer.old printer.new (separator first) }
{
    printer.put_comma(first)
}

/// Puts the end of a record, a carriage return and a line feed.
pub fn put_record_end<W: Write>(printer: &mut Printer<'_, W>)
    ensures { Puts W.contents printer.old printer.new record_end }
{
    printer.put(b"\r\n")
}
