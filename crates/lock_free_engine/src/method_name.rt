//! Decides whether a method's name asks for a run without a lock.

ghost use Rattle.std.specs.Prelude.{◌≡◌};
ghost use Rattle.lock_free_engine.specs.MethodName.{is_lock_free};

/// Whether a name asks for a run of the push-relabel machine without a lock: `lock-free`, or its other name `words`.
pub fn names_lock_free(name: &[u8]) -> bool
    ensures { result ≡ is_lock_free name.now }
{
    name == b"lock-free".as_slice() || name == b"words".as_slice()
}
