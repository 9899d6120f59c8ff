// For the receiver. No test ends another early, and each list is tested in its own width: one generic function would widen the window, whose test
// each symbol passes.
ghost use Rattle.std.specs.Prelude.{◌≡◌};
ghost use Rattle.receiver_bounds.specs.Bounds.{all_within};

pub fn window_within(win: &[i16; 48]) -> bool
    ensures { result ≡ all_within 4096 win.now }
{
    let mut all = true;
    for &v in win {
        all = all & ((-4096 <= v) & (v <= 4096));
    }
    all
}
