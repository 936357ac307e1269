// Where a byte first stands in a text. (`memchr` of the kit looks at 32 bytes in one step of the machine.)
#![tactic(auto)]

ghost use Rattle.search.specs.Search.{Finds};

use memchr::memchr;

// The index of the first such byte.
pub fn find(text: &[u8], byte: u8) -> Option<usize>
    ensures { Finds byte text.now result }
{
    memchr(byte, text)
}
