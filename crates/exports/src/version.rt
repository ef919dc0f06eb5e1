// The version of the calls.
ghost use Rattle.std.specs.Prelude.{◌≡◌};
ghost use Rattle.exports.specs.Calls.{version};

// The form of the calls: a change of one raises it.
const VERSION: u64 = 8;

#[unsafe(no_mangle)]
pub extern "C" fn llunareth_version() -> u64
    ensures { result ≡ version }
{
    VERSION
}
