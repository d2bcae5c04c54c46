ghost use Rattle.std.specs.Prelude.{◌≡◌};
ghost use Rattle.tr_threads.specs.Rows.{blocked_word, runnable_word};

use tr_tracee::Thread;

pub(crate) fn blocked_word(thread: &Thread) -> u64
    ensures { result ≡ blocked_word thread.now }
{
    if thread.life.is_live() {
        thread.mask.bits()
    } else {
        0
    }
}

pub(crate) fn runnable_word(thread: &Thread) -> u64
    ensures { result ≡ runnable_word thread.now }
{
    if thread.is_ready_to_take() {
        u64::MAX
    } else {
        0
    }
}
