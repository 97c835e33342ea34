// Columns with one number for each member.
ghost use Rattle.std.specs.Prelude.{◌≡◌, length};
ghost use Rattle.rules.specs.Default.{sum_of, given_up};
ghost use Rattle.dealing.specs.Levels.{most_weight, MemberColumn};

pub fn sum_of(numbers: &[u64]) -> u64
    requires { MemberColumn most_weight numbers.now }
    ensures { result ≡ sum_of numbers.now }
{
    numbers.iter().sum()
}

// Lots given up, lowest member first.
pub fn give_up(lots: u64, held: &[u64], given: &mut [u64])
    requires { length given.old ≡ length held.now }
    ensures { given.new ≡ given_up lots held.now }
{
    let mut remaining = lots;
    for (i, has) in held.iter().enumerate() {
        let share = remaining.min(*has);
        given[i] = share;
        remaining -= share;
    }
}
