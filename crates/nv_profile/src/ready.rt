// Profiles that a word names.
ghost use Rattle.std.specs.Prelude.{◌≡◌, ◌↔◌, codes, IfSome, IsSome};
ghost use Rattle.nv_profile.specs.Ready.{IsReadyWord};

/// The profile of the word `tiny`: 128 lines on two channels.
pub const TINY: &str = "[timing]
tRCD = 16
tRP = 16
tRAS = 39
CL = 16
CWL = 12
tCCD_S = 4
tCCD_L = 6
tRRD_S = 4
tRRD_L = 6
tFAW = 26
tWR = 18
tWTR_S = 3
tWTR_L = 9
tRTP = 9
tRTW = 10
tCS = 2
tRFC = 420
tREFI = 9360
[geometry]
channels = 2
ranks = 1
groups = 2
banks = 4
rows = 2
columns = 4
[costs]
e_act = 4
e_col = 2
e_pre = 1
e_ref = 20
e_sre = 1
e_clk = 1
e_mark = 50
e_sync = 100
e_page = 1000
leak = 1
[module]
depth = 8
reads = 8
trail = 1024
notices = 64
map = \"lines\"
";

/// The profile of the word `tiny2`: that of `tiny`, where a page's part of a digest costs something.
pub const TINY2: &str = "[timing]
tRCD = 16
tRP = 16
tRAS = 39
CL = 16
CWL = 12
tCCD_S = 4
tCCD_L = 6
tRRD_S = 4
tRRD_L = 6
tFAW = 26
tWR = 18
tWTR_S = 3
tWTR_L = 9
tRTP = 9
tRTW = 10
tCS = 2
tRFC = 420
tREFI = 9360
[geometry]
channels = 2
ranks = 1
groups = 2
banks = 4
rows = 2
columns = 4
[costs]
e_act = 4
e_col = 2
e_pre = 1
e_ref = 20
e_sre = 1
e_clk = 1
e_mark = 50
e_sync = 100
e_page = 1000
leak = 1
e_digest = 100
[module]
depth = 8
reads = 8
trail = 1024
notices = 64
map = \"lines\"
";

/// The text of the profile that a word names, if one has this word.
pub fn ready_profile(word: &str) -> Option<&'static str>
    ensures word { IsSome result ↔ IsReadyWord word.now }
    ensures tiny { word.now ≡ codes "tiny" → IfSome result (λ text. text.now ≡ TINY.now) }
    ensures tiny2 { word.now ≡ codes "tiny2" → IfSome result (λ text. text.now ≡ TINY2.now) }
{
    if word == "tiny" {
        Some(TINY)
    } else if word == "tiny2" {
        Some(TINY2)
    } else {
        None
    }
}
