// The version of the interface.
ghost use Rattle.std.specs.Prelude.{◌≡◌};
ghost use Rattle.zrv.specs.meaning.EdgeCalls.{version};

// Its two numbers, as ZRV_VERSION_MAJOR and ZRV_VERSION_MINOR of include/zrv.h have them.
const MAJOR: u32 = 2;

const MINOR: u32 = 0;

// Version: that of the archive, for a host to compare with its header's.
#[unsafe(no_mangle)]
pub extern "C" fn zrv_version() -> u32
    ensures { result ≡ version }
{
    MAJOR * 65536 + MINOR
}
