//! The laws of what runs write. These functions do nothing: the contract of each is a law.

ghost use Rattle.poke_batch.specs.PathLaws.{PathsLeadToParts, MappedPathsAreClear, MappedMembersAreFew};
ghost use Rattle.poke_batch.specs.RunLaws.{MappedPartsAreSmall, MappedJsonReadsBack, PartJsonReadsBack, StyledPartJsonReadsBack, PathsLeadToOnePart, CellsAreParts, PrintedRowsAreWhole};
ghost use Rattle.poke_batch.specs.ObjectLaws.{DoneObjectReads, StoredObjectReadsBack};

/// The numbers of a value that fits a type of an accepted pickle are below 2^64, and the bytes of its texts and names below 256.
pub fn mapped_parts_are_small()
    ensures law { MappedPartsAreSmall }
{}

/// If a mapping in JSON is done, what it wrote reads as the value that was mapped.
pub fn mapped_json_reads_back()
    ensures law { MappedJsonReadsBack }
{}

/// If a mapping under terms in JSON, in the plain style and without a selection is done, what it wrote reads as the requested
/// part of the value that was mapped.
pub fn part_json_reads_back()
    ensures law { PartJsonReadsBack }
{}

/// In every style too, it reads as that part in the style: a hexadecimal integer as a string of its digits, an array of
/// chars as a string, and elements that are left out as one object with their count.
pub fn styled_part_json_reads_back()
    ensures law { StyledPartJsonReadsBack }
{}

/// A path leads to the same part as a pattern, in a row of a table, and as the one requested part.
pub fn paths_lead_to_one_part()
    ensures law { PathsLeadToOnePart }
{}

/// In flat and in JSON, what a row has for a part that is there is what the request of that part alone prints, but for the line
/// feed at its end.
pub fn cells_are_parts()
    ensures law { CellsAreParts }
{}

/// Where rows that lack a part are left out, the lines are those of the rows that have the parts of all columns, in their
/// order.
pub fn printed_rows_are_whole()
    ensures law { PrintedRowsAreWhole }
{}

/// The JSON object of a file whose run is done reads as an object with its name, the exit status 0, its value, and the lines
/// of its reasons as a list of strings.
pub fn done_object_reads()
    ensures law { DoneObjectReads }
{}

/// If a run into memory under terms in JSON, without a selection, is done, its object reads so with the requested part of
/// the value that was mapped, in every style.
pub fn stored_object_reads_back()
    ensures law { StoredObjectReadsBack }
{}

/// The path on a line of the mode `lines`, read as steps, leads to just the part that the line is about. The names of the
/// members of a value have to differ and to be words, and no value may have 2^64 members or more.
pub fn paths_lead_to_parts()
    ensures law { PathsLeadToParts }
{}

/// The names of a value that fits a type of an accepted pickle differ in each struct, and are words.
pub fn mapped_paths_are_clear()
    ensures law { MappedPathsAreClear }
{}

/// On fewer than 2^64 bits no value in it has 2^64 members or more.
pub fn mapped_members_are_few()
    ensures law { MappedMembersAreFew }
{}
