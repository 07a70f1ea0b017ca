// Where a run stands.

ghost use Rattle.std.specs.Prelude.{◌≤◌};

// The next call's place, where it starts in the window and where what is read ends there, and where the next line starts.
// Kept: `at` and `have` stand beside the window, not a slice of it: memory is fixed, and what is read comes into the same window, which a
// slice kept from call to call would lend out.
#[derive(Clone, Copy)]
pub struct Stand {
    pub place: u64,
    pub at: usize,
    pub have: usize,
    pub used: usize,
    ghost in_order: { at ≤ have },
    ghost in_window: { have ≤ 262144 },
    ghost in_lines: { used ≤ 32768 },
}
