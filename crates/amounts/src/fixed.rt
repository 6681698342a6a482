// Amounts with a fixed number of decimals.
ghost use Rattle.std.specs.Prelude.{◌≡◌, ◌^◌, ◌<◌};
ghost use Rattle.text.specs.Puts.{Puts, Room};
ghost use Rattle.amounts.specs.Amounts.{padded, pointed, fixed};

use text::writer::Writer;

// The last digits of a number, zeros included.
fn put_padded(to: &mut Writer, places: u64, n: u64)
    requires { Room to.old.text.now to.old.at (padded places n) }
    ensures puts { Puts to.old.text.now to.old.at (padded places n) to.new.text.now to.new.at }
    ensures same_text { to.new.text.ghost_name ≡ to.old.text.ghost_name }
{
    if places > 0 {
        put_padded(to, places - 1, n / 10);
        to.put_decimal(n % 10);
    }
}

// The whole part, a point, and so many decimals.
pub fn put_pointed(to: &mut Writer, ones: u64, places: u64, parts: u64)
    requires { Room to.old.text.now to.old.at (pointed ones places parts) }
    ensures puts { Puts to.old.text.now to.old.at (pointed ones places parts) to.new.text.now to.new.at }
    ensures same_text { to.new.text.ghost_name ≡ to.old.text.ghost_name }
{
    to.put_decimal(ones);
    to.put_byte(b'.');
    put_padded(to, places, parts);
}

fn put_fixed(to: &mut Writer, places: u32, n: u64)
    requires small { 10 ^ places < 2 ^ 64 }
    requires room { Room to.old.text.now to.old.at (fixed places n) }
    ensures puts { Puts to.old.text.now to.old.at (fixed places n) to.new.text.now to.new.at }
    ensures same_text { to.new.text.ghost_name ≡ to.old.text.ghost_name }
{
    let unit = 10u64.pow(places);
    put_pointed(to, n / unit, u64::from(places), n % unit);
}

// An amount with all its twelve decimals. This and put_thousandths stay two: each is one line that names the number of decimals.
pub fn put_exact(to: &mut Writer, amount: u64)
    requires { Room to.old.text.now to.old.at (fixed 12 amount) }
    ensures puts { Puts to.old.text.now to.old.at (fixed 12 amount) to.new.text.now to.new.at }
    ensures same_text { to.new.text.ghost_name ≡ to.old.text.ghost_name }
{
    put_fixed(to, 12, amount);
}

// An amount in thousandths.
pub fn put_thousandths(to: &mut Writer, thousandths: u64)
    requires { Room to.old.text.now to.old.at (fixed 3 thousandths) }
    ensures puts { Puts to.old.text.now to.old.at (fixed 3 thousandths) to.new.text.now to.new.at }
    ensures same_text { to.new.text.ghost_name ≡ to.old.text.ghost_name }
{
    put_fixed(to, 3, thousandths);
}
