// Which worker steps next, and which order comes next.
// Uses `model` and `orders`.

#![tactic(auto)]

ghost use Rattle.std.specs.Prelude.{◌≡◌, ◌-◌, ◌≤◌, length};
ghost use Rattle.turns.specs.Turns.{from, first_busy, Turned};

// The first worker from `first` on that has an operation open or left; 8 if there is none, as `first_busy` and `Turned` have it.
pub fn up(todo: &[u32; 8], first: u32) -> u32
    requires { length todo.now ≡ 8 }
    ensures { result ≡ first_busy todo.now (from first (8 - first)) }
{
    for i in first..8 {
        if 0 < todo[i as usize] {
            return i;
        }
    }
    8
}

// The start of the next order: of the last step that a higher worker might have made, that one makes it. Answers how many steps
// are given so; 0 if there is no further order.
pub fn turn(order: &mut [u32; 256], others: &[u32; 256], steps: u32) -> u32
    requires steps_bound { steps ≤ 256 }
    requires order_len { length order.old ≡ 256 }
    requires others_len { length others.now ≡ 256 }
    ensures { Turned order.old others.now steps result order.new }
{
    for k in (0..steps as usize).rev() {
        let other = others[k];
        if other < 8 {
            order[k] = other;
            return k as u32 + 1;
        }
    }
    0
}
