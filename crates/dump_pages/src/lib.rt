// Rule 2 of a dumped board (CR 13): no page has two frames from U up.
#![tactic(auto)]

ghost use Rattle.std.specs.Prelude.{◌≡◌, ◌*◌, ◌≤◌, ◌<◌, length};
ghost use Rattle.doubles.specs.Doubles.{keys_of};
ghost use Rattle.dump_pages.specs.Pages.{page_at, doubled_page};

use address::ordinary_page;
use board::Shape;

// The ordinary page that the word of a frame from U up names; 0 if there is none.
fn page_at(s: Shape, words: &[u64], f: usize) -> u64
    requires { f < length words.now }
    ensures { result ≡ page_at s words.now f }
{
    if f < s.uncached {
        return 0;
    }
    let w = words[f];
    if w % 2 == 1 {
        if ordinary_page(w / 4) {
            return w / 4;
        }
    }
    0
}

// The pages of all frames.
fn page_keys(s: Shape, words: &[u64], keys: &mut [u64])
    requires { length keys.old ≡ length words.now }
    ensures { keys.new ≡ keys_of (page_at s words.now) (length keys.old) }
{
    for (f, key) in keys.iter_mut().enumerate() {
        *key = page_at(s, words, f);
    }
}

// The lowest frame from U up whose page a higher frame names too. Keys and links may hold anything.
pub fn doubled_page(s: Shape, words: &[u64], keys: &mut [u64], links: &mut [u64]) -> Option<usize>
    requires { (length words.now ≡ s.frames) × (length keys.old ≡ s.frames) × (2 * s.frames ≤ length links.old) }
    ensures { result ≡ doubled_page s words.now }
{
    page_keys(s, words, keys);
    doubles::lowest_double(keys, links)
}
