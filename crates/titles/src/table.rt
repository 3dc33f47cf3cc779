ghost use Rattle.std.specs.Prelude.{◌≡◌, ℕ, None, slice_index_or};
ghost use Rattle.titles.specs.Titles.{handed};

use swap::records::Holder;

// Hands all that one holder has to another.
pub fn hand_over(titles: &mut [Option<Holder>], from: Holder, to: Holder)
    ensures { (k : ℕ) → slice_index_or titles.new k None ≡ handed (slice_index_or titles.old k None) from to }
{
    for title in titles.iter_mut() {
        if *title == Some(from) {
            *title = Some(to);
        }
    }
}
