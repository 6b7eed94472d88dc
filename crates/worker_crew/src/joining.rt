//! Work beside other work, in a thread whose stack has a chosen size.
ghost use Rattle.std.specs.Prelude.{◌≡◌};

use core::thread::Stack;
use std::snapshot::Snapshot;
use std::sync::Wait;
use std::thread::{Promise, Threads, scope, scope_env};

/// The bytes of the stack of each thread. Of these the system gives only what is used. Terms are walked and let go by functions that
/// call themselves, so a deep term wants a deep stack.
pub const STACK: usize = 256 << 20;

// Work that is done once. A closure's own type says nothing of what it writes through what it borrowed, so work that is lent hands
// back what it was lent.
trait Task {
    type Output;

    ghost can_run: { Self → Type 0 };

    ghost run_gives: { Self → Self.Output → Type 0 };

    fn run(self) -> Self::Output
        requires { can_run self }
        ensures { run_gives self result };
}

/// A closure that is lent.
#[derive(Drop)]
struct Lent<'a, F> {
    f: &'a mut F,
}

impl<'a, F: FnMut() -> A, A> Task for Lent<'a, F> {
    type Output = (&'a mut F, A);

    ghost can_run = { λ t. F.pre t.f.now };

    ghost run_gives = { λ t r. (r.0.ghost_name ≡ t.f.ghost_name) × F.step t.f.now r.1 r.0.now };

    fn run(self) -> (&'a mut F, A) {
        let Lent { f } = self;
        let a = f();
        (f, a)
    }
}

/// The promise that a thread gives what this work gives.
#[derive(Drop)]
struct Gives<S>(Snapshot<S>);

impl<S: Task> Promise<S::Output> for Gives<S> {
    ghost kept_by = { λ p r. S.run_gives p.0.value r };
}

/// Does the first work in a thread of its own, and the second in the present one. Where no thread can be made the first comes last.
fn run_both<
    R: Threads + Wait,
    S: Task<Output = A> + Send + Drop,
    T: Task<Output = B> + Drop,
    A: Send + Drop,
    B,
>(rt: &R, first: S, second: T) -> (A, B)
    requires { S.can_run first × T.can_run second }
    ensures { S.run_gives first result.0 × T.run_gives second result.1 }
{
    scope(
        scope_env(),
        rt,
        move |threads| -> (A, B)
            requires { S.can_run first × T.can_run second }
            ensures { S.run_gives first result.0 × T.run_gives second result.1 }
        {
            let promise = Gives(Snapshot::of(&first));
            let task = move || -> A
                requires { S.can_run first }
                ensures { S.run_gives first result }
            { first.run() };
            match Stack::new()
                .stack_size(STACK)
                .spawn_scoped_with(threads, promise, task)
            {
                Ok(thread) => {
                    let b = second.run();
                    (thread.join(rt), b)
                }
                Err(refused) => {
                    let b = second.run();
                    ((refused.value)(), b)
                }
            }
        },
    )
}

// Does nothing, but this use of a returned reference is what ties it, for the borrow checker, to the parameter that lent it.
fn take_back<T>(x: &mut T)
    ensures { x.new ≡ x.old }
{}

/// Calls the first closure in a thread of its own, or last where none can be made, and the second in the present thread.
pub(crate) fn beside<R: Threads + Wait, F: FnMut() -> A + Send, G: FnMut() -> B, A: Send + Drop, B>(
    rt: &R,
    f: &mut F,
    g: &mut G,
) -> (A, B)
    requires { F.pre f.old × G.pre g.old }
    ensures { F.step f.old result.0 f.new × G.step g.old result.1 g.new }
{
    let ((f, a), (g, b)) = run_both(rt, Lent { f }, Lent { f: g });
    take_back(f);
    take_back(g);
    (a, b)
}
