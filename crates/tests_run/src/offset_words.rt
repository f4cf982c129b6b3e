//! Offsets as arguments, with the bits that they name.

use poke_batch::offset_word;
use std::test::Fail;
use tests_kit::rows::same_text;
use tests_kit::text::bytes_of;

const WORDS: &str = r"8#B ==> Some(64)
3#12 ==> Some(36)
0#b ==> Some(0)
007#004 ==> Some(28)
18446744073709551615#b ==> Some(18446744073709551615)
1#4294967295 ==> Some(4294967295)
18446744073709551616#b ==> None
2305843009213693952#B ==> None
1#4294967296 ==> None
8 ==> None
1#0 ==> None
-1#b ==> None
+1#b ==> None
1#+1 ==> None
`201#b ==> None
1#b#b ==> None
1#B`20 ==> None
1#c ==> None
1# ==> None
#B ==> None
 ==> None";

#[test]
fn reads_offsets(rt: HostRuntime) -> Result<(), Fail> {
    let alloc = rt.alloc();
    for line in WORDS.lines() {
        let (word, told) = line.split_once(" ==> ").ok_or("no arrow")?;
        let found = format!(in alloc; "{:?}", offset_word(&bytes_of(alloc, word)?))?;
        same_text(found.as_str(), told, line)?;
    }
    Ok(())
}
