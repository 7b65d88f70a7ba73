// How a list closes up when an element of it is removed.
ghost use Rattle.std.specs.Prelude.{◌≡◌, ◌+◌, ◌≤◌, ◌<◌, length};
ghost use Rattle.std.specs.List.{copy_within};

// Each element behind the hole, up to `end`, moves one place down. std's `copy_within` promises the same, but is compiled to a call of memmove, which programs that link the archive for C would then have to bring.
pub fn close_up<T: Copy>(items: &mut [T], hole: usize, end: usize)
    requires { hole < end × end ≤ length items.old }
    ensures after { items.new ≡ copy_within items.old (hole + 1) end hole }
{
    for gap in hole..end - 1 {
        let next = items[gap + 1];
        items[gap] = next;
    }
}
