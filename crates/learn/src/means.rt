// The rounded means of a set's pilots.
ghost use Rattle.std.specs.Prelude.{◌≡◌, ℕ, ◌+◌, ◌/◌, ◌≤◌, ◌<◌, ◌^◌, nat_abs, length, get_or};
ghost use Rattle.laws.specs.Ranges.{firsts};
ghost use Rattle.learn.specs.Learning.{mean_of, mean_at, all_piloted};
ghost use Rattle.learn.specs.Ranges.{SumsOk};

// The mean of count numbers of this sum.
fn mean(sum: i64, count: u32) -> i16
    requires { (nat_abs sum ≤ 2 ^ 41) × (0 < count) }
    ensures { result ≡ mean_of sum count }
{
    fx::plain::sat16(fx::ranged::div_round(sum, count as i64))
}

// Each of the n labels from place a on has a pilot.
pub(crate) fn all_piloted(count: &[u32; 62], a: usize, n: usize) -> bool
    requires { a + n ≤ 62 }
    ensures { result ≡ all_piloted count.now a n }
{
    count[a..a + n].iter().all(|&c| 0 < c)
}

// The means from number s on, as many as out holds.
pub(crate) fn write(sum: &[i64; 124], count: &[u32; 62], s: usize, out: &mut [i16])
    requires { (s + length out.old ≤ 124) × (SumsOk sum.now) × ((i : ℕ) → i < length out.old → 0 < get_or count.now ((s + i) / 2) 0) }
    ensures { out.new ≡ firsts (λ (i : ℕ). mean_at sum.now count.now (s + i)) (length out.old) }
{
    for (i, x) in out.iter_mut().enumerate() {
        let j = s + i;
        *x = mean(sum[j], count[j / 2]);
    }
}
