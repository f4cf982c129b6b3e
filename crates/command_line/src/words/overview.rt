//! The long help of the program.

/// The long help of the program. `tools/options --write` writes the options in it, from the first to the line that begins
/// with "Without arguments".
pub const PROGRAM_HELP: &str = "\
PICKLE is a path, - for standard input, or +NAME for a pickle that is installed, as +png: `poke_batch formats` lists
these. They are in the folder that POKE_BATCH_PICKLES names, else in ../share/poke_batch/pickles from the program. With
+NAME the TYPE may be left out: then the pickle's head says the type and the options. A TYPE of - means the same.
OFFSET is a number, # and a unit: b for bits, B for bytes, or a number of bits, as 8#b, 1#B or 2#4.

Options of map, show, each and records:
  --at OFFSET      where the value begins in FILE [default: 0#b]
  --byte N         the byte where the value begins, as 446, 0x1be or, from the end of FILE, -512 [default: 0]
  --memory BYTES   the most bytes that stored values may take [default: any number]

Options of find:
  --at OFFSET      where the search begins in FILE [default: 0#b]
  --byte N         the byte where the search begins, as 446, 0x1be or, from the end of FILE, -512 [default: 0]
  --memory BYTES   the most bytes that stored values of one attempt may take [default: any number]
  --get PATH       print a part of the value after its place and size: . or steps of .name, .place, [place]
                   [default: none]
  --step OFFSET    how far each start is from the one before [default: 1#B]
  --header         print the names of the columns first [default: no]
  --apart          after a value go on at or after its end [default: at the next start]
  --count N        stop after the lines of N values [default: at the end of FILE]
  --attempt-limit N  the most steps of the attempt at one start [default: 1000000]
  --limit N        the most steps of all attempts together [default: 1000000000, or 256 a start if that is more]
  --mode MODE      how the line of a value is printed (flat or json) [default: flat]
  --flush          write each line before the search goes on [default: no]

Options of map, show, each, records and find:
  --length BYTES   after how many bytes from there FILE ends, as 446 or 0x1be [default: where it does]
  --endian ORDER   the byte order (big or little) [default: big, without TYPE that of the head]
  --slots N        the most slots of each kind, reserved before the mapping [default: any number]
  --numbers FORM   how numbers are printed (decimal, hex or digits)
                   [default: decimal, in show with hexadecimal after it]
  --chars FORM     how arrays of char are printed (numbers or text) [default: numbers, in show text]
  --elements N     the most elements that are printed of an array, or all [default: all, in show 16]

Options of map, show and each:
  --inside         map the type of +NAME for the format inside other bytes [default: that of whole files]
  --limit N        the most steps of the mapping, or auto: the default, or 256 a byte if that is more
                   [default: 1000000000]
  --whole          accept only a value that ends where FILE does [default: any end]
  --max-output N   the most bytes of the printed value [default: any length]

Options of records:
  --limit N        the most steps of all records together [default: 1000000000, or 256 a byte if that is more]
  --header         print the names of the columns first [default: no]
  --count N        stop after the lines of N records [default: where the list ends]
  --omit N         how many records are mapped first, and not printed [default: 0]
  --any-end        accept a list that ends before FILE does [default: fault Left]
  --report-end     print at last where the next record would begin, and how many there were [default: no]
  --of PATH        the records are those of the array at PATH in TYPE, as .packets [default: values of TYPE]
  --resume OFFSET  with --of, where in FILE the list goes on [default: at its first record]
  --mode MODE      how each value is printed (flat, tree, json or lines) [default: flat]
  --flush          write each record before the next one is mapped [default: no]

Options of map and show:
  --get PATH       print parts of the value: . or steps of .name, .place, [place], [*], [2:5], .* [default: .]

Options of each and records:
  --get PATH       print a part of the value, or many as columns: . or steps of .name, .place, [place] [default: .]

Options of map, show, each, records, find and identify:
  --spool BYTES    read a FILE without a length, as a pipe, up to so many bytes [default: it isn't opened]
  --progress       show how much is done, if standard error is a terminal [default: no]

Options of map:
  --rows PATTERN   print a line for each part that PATTERN leads to, with a column for each --get
  --header         with --rows, print the names of the columns first [default: no]
  --absent WHAT    what a part that isn't there is: a fault, an empty column or line, or no row (fault, empty or skip)
                   [default: fault]
  --mode MODE      how the value is printed, or raw for the bytes that it takes (flat, tree, json, lines or raw)
                   [default: flat]

Options of show, each, records and find:
  --absent WHAT    what a part that isn't there is: a fault, or an empty column or line (fault or empty)
                   [default: fault]

Options of identify:
  --all            print all formats that fit, those without a signature too [default: the first]
  --in FOLDER      try the pickles in FOLDER [default: those that are installed]
  --byte N         the byte where the format begins, as 446, 0x1be or, from the end of FILE, -512 [default: 0]
  --length BYTES   after how many bytes from there FILE ends, as 446 or 0x1be [default: where it does]
  --mode MODE      how the answer is printed (text or json) [default: text]
  --why            explain why FILE or the pickles aren't opened [default: no]

Options of bound:
  --text           print the most bytes of the printed value too
  --tight          print tighter bounds on the steps and slots too
  --memory         print the most bytes that stored values take too
  --mode MODE      with --text, in this mode alone (flat, tree, json or lines) [default: in any]
  --numbers FORM   with --text, for numbers in this form (decimal, hex or digits) [default: decimal]
  --chars FORM     with --text, for arrays of char in this form (numbers or text) [default: numbers]
  --elements N     with --text, for so many elements of an array, or all [default: all]

Options of each:
  --mode MODE      how the value is printed (flat or json) [default: flat]

Options of check, types and formats:
  --mode MODE      how the answer is printed (text or json) [default: text]

Options of map, each, records, find and identify:
  --faults FORM    how a refusal or a fault is printed (text or json) [default: text]

Options of show:
  --depth N        the most levels of parts below the value that are shown, or all [default: 6]
  --sizes          show the size of each part after its place [default: no]
  --bytes          show the first bytes of each part after its place [default: no]
  --color WHEN     when colors are printed (auto, always or never) [default: auto]

Options of types:
  --parts NAME     list the parts that values of the type NAME can have
  --depth N        the most levels of parts below the value that are listed, or all [default: 6]

Options of map, each and records:
  --why            explain why the pickle or TYPE is refused, or what stops a mapping [default: no]

Options of find, bound and types:
  --why            explain why the pickle or TYPE is refused [default: no]

Options of check:
  --why            explain why the pickle is refused, or what an accepted one can't mean [default: no]

Options of each and identify:
  --flush          write the line of a file before the next file is read [default: no]
  --files0-from PATH  read names of files from PATH, or standard input for -, each ended by a byte 0

Options of dump:
  --from OFFSET    the first byte, in whole bytes [default: 0#B]
  --size OFFSET    how much to dump at most, in whole bytes [default: 128#B]
  -s, --skip BYTES  the first byte, as 446 or 0x1be
  -n, --length BYTES  how many bytes to dump at most
  --no-ruler       leave out the line above the bytes [default: it is printed]

Without arguments the program runs `check -`.

Example:
  printf '\\001\\002\\003' > three.bin
  echo 'type P = struct { uint<8> a; uint<16> b; };' | poke_batch map - P three.bin

Exit status:
  0  done
  1  the mapping has a fault, or its value is rejected
  2  refused: the arguments, an offset, the pickle or the type's name
  3  memory, a file, standard input or an output failed";
