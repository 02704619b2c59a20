// Numbers that a stack keeps codes in.
ghost use Rattle.std.specs.Prelude.{◌≡◌, ℕ, ◌^◌, ◌<◌};

use lent::Zero;

// Codes below `limit` go in and come out again; any other is put in as 0. `TryFrom` does not say of every type which
// numbers it takes, so each type of numbers says it here.
pub trait Code: Zero {
    ghost limit: { ℕ };

    ghost value: { Self → ℕ };

    fn put(code: u64) -> Self
        ensures { code < limit → value result ≡ code };

    fn get(self) -> u64
        ensures { result ≡ value self };
}

impl Code for u8 {
    ghost limit = { 256 };

    ghost value = { λ s. s };

    fn put(code: u64) -> u8 {
        u8::try_from(code).unwrap_or(0)
    }

    fn get(self) -> u64 {
        u64::from(self)
    }
}

impl Code for u64 {
    ghost limit = { 2 ^ 64 };

    ghost value = { λ s. s };

    fn put(code: u64) -> u64 {
        code
    }

    fn get(self) -> u64 {
        self
    }
}
