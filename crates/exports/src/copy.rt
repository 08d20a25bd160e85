// The records of one list copied to another, each as what it stands for.
ghost use Rattle.std.specs.Prelude.{◌≡◌, length};
ghost use Rattle.std.specs.List.{AllZip};

pub(crate) fn copy_from<A: Copy, B: From<A> + Drop>(from: &[A], to: &mut [B])
    requires { length from.now ≡ length to.old }
    ensures { AllZip B.from_gives from.now to.new }
{
    for (place, record) in from.iter().enumerate() {
        to[place] = B::from(*record);
    }
}
