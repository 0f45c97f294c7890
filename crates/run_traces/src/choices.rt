// The choices of a trace.
ghost use Rattle.std.specs.Prelude.{◌≡◌, ◌+◌, ◌^◌, ◌<◌, slice_get, IsSome};

use schedule_replay::round_robin;

/// Which instance each step executes.
#[derive(Clone, Copy)]
pub enum Choices<'a> {
    /// So many steps, each instance in turn.
    Turns(u64),
    /// The instances of these numbers.
    Listed(&'a [u32]),
}

impl Choices<'_> {
    ghost use Rattle.run_traces.specs.Choices.{choices_of};

    /// The choice of a step, from 0, among k instances. `None` exactly where the choices end before it.
    pub fn get(&self, k: u32, step: u64) -> Option<u32>
        requires { 0 < k }
        ensures choice { result ≡ slice_get (choices_of k self.now) step }
        ensures more { IsSome result → step + 1 < 2 ^ 64 }
    {
        match self {
            Choices::Turns(count) => {
                if step < *count {
                    Some(round_robin(k, step))
                } else {
                    None
                }
            }
            Choices::Listed(choices) => listed(choices, step as usize),
        }
    }
}

fn listed(choices: &[u32], place: usize) -> Option<u32>
    ensures { result ≡ slice_get choices.now place }
{
    choices.get(place).copied()
}
