//! Laws of the definitions that the contracts cite. Each is proved; a call does nothing.
ghost use Rattle.std.specs.Prelude.{◌≡◌, ◌≢◌, ◌++◌, [], ℕ, List, Some, None, true, false, length};
ghost use Rattle.nbt_look.specs.CaptureText.{tick_text, ticks_text};
ghost use Rattle.nb_pcap.specs.Frame.{FrameValue};
ghost use Rattle.nbt_look.specs.Merging.{IsAscending, Merges, comes_first, of_place};

/// In a merge stand the frames of each file in their order, each once, and no others, so of one
/// file all its frames; where the times of no file decrease, nor do those of the merge.
pub fn merges()
    ensures each { (files left : ℕ → List FrameValue) (frames : List FrameValue)
        → Merges files frames left → (places : List ℕ) × (length places ≡ length frames)
        × ((i : ℕ) → files i ≡ of_place places frames i ++ left i) }
    ensures alone { (files left : ℕ → List FrameValue) (frames : List FrameValue)
        → ((i : ℕ) → i ≢ 0 → files i ≡ []) → Merges files frames left
        → files 0 ≡ frames ++ left 0 }
    ensures ascending { (files left : ℕ → List FrameValue) (frames : List FrameValue)
        → ((i : ℕ) → IsAscending (files i)) → Merges files frames left → IsAscending frames }
{}

/// Which of two frames comes first, the one of the file that was given earlier or the other: by
/// time, where times are equal the other, and one without a time before any.
pub fn turns()
    ensures earlier { comes_first (Some 4) (Some 5) ≡ true }
    ensures later { comes_first (Some 5) (Some 4) ≡ false }
    ensures equal { comes_first (Some 5) (Some 5) ≡ false }
    ensures first_timeless { comes_first None (Some 0) ≡ true }
    ensures second_timeless { comes_first (Some 0) None ≡ false }
    ensures both_timeless { comes_first None None ≡ true }
{}

/// The ticks of a capture as text: none within a second; one for each second that begins; of a
/// pause those of its first three seconds, and the last one.
pub fn clock()
    ensures within { ticks_text 7 7 ≡ [] }
    ensures next { ticks_text 7 8 ≡ tick_text 8 }
    ensures pause { ticks_text 7 90
        ≡ tick_text 8 ++ (tick_text 9 ++ (tick_text 10 ++ tick_text 90)) }
    ensures earlier { ticks_text 7 3 ≡ [] }
{}
