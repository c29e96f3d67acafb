// Six numbers that may be a layout.

ghost use Rattle.std.specs.Prelude.{◌≡◌, ◌+◌, ◌<◌, nat_le, IsTrue};
ghost use Rattle.layout_params.specs.Sizes.{is_legal, are_apart, field_fits, descr_fits, f_width_fits, v_width_fits, widths_fit, fields_fit, fields_apart};
ghost use Rattle.layout_params.specs.Views.{sizes_of};

/// The numbers of a layout, legal or not, in bytes.
#[derive(Clone, Copy, Debug)]
pub struct Candidate {
    pub descr: u64,
    pub a_at: u64,
    pub f_at: u64,
    pub f_len: u64,
    pub v_at: u64,
    pub v_len: u64,
}

impl Candidate {
    /// Whether they are a legal layout.
    pub fn is_legal(&self) -> bool
        ensures { result ≡ is_legal (sizes_of self.now) }
    {
        self.has_widths() && self.has_fields_within() && self.has_fields_apart()
    }

    fn has_widths(&self) -> bool
        ensures { result ≡ widths_fit (sizes_of self.now) }
    {
        self.has_descr() && self.has_f_width() && self.has_v_width()
    }

    #[tactic(auto, unfolding(crate::specs::Sizes::widths_fit))]
    fn has_fields_within(&self) -> bool
        requires { IsTrue (widths_fit (sizes_of self.now)) }
        ensures { result ≡ fields_fit (sizes_of self.now) }
    {
        self.has_a() && self.has_f() && self.has_v()
    }

    /// Whether a descriptor has from 16 to 64 bytes, a multiple of 8.
    pub fn has_descr(&self) -> bool
        ensures { result ≡ descr_fits self.now.descr }
    {
        self.descr % 8 == 0 && self.descr >= 16 && self.descr <= 64
    }

    pub fn has_f_width(&self) -> bool
        ensures { result ≡ f_width_fits self.now.f_len }
    {
        matches!(self.f_len, 1 | 2 | 4)
    }

    pub fn has_v_width(&self) -> bool
        ensures { result ≡ v_width_fits self.now.v_len }
    {
        matches!(self.v_len, 2 | 4 | 8)
    }

    /// Whether A stands within a descriptor, at a multiple of its width.
    pub fn has_a(&self) -> bool
        ensures { result ≡ field_fits self.now.descr self.now.a_at 8 }
    {
        is_within(self.descr, self.a_at, 8)
    }

    /// Whether F stands within a descriptor, at a multiple of its width.
    pub fn has_f(&self) -> bool
        requires { IsTrue (f_width_fits self.now.f_len) }
        ensures { result ≡ field_fits self.now.descr self.now.f_at self.now.f_len }
    {
        is_within(self.descr, self.f_at, self.f_len)
    }

    /// Whether V stands within a descriptor, at a multiple of its width.
    pub fn has_v(&self) -> bool
        requires { IsTrue (v_width_fits self.now.v_len) }
        ensures { result ≡ field_fits self.now.descr self.now.v_at self.now.v_len }
    {
        is_within(self.descr, self.v_at, self.v_len)
    }

    /// Whether no two of the three fields share a byte.
    pub fn has_fields_apart(&self) -> bool
        ensures { result ≡ fields_apart (sizes_of self.now) }
    {
        is_apart(self.a_at, 8, self.f_at, self.f_len)
            && is_apart(self.a_at, 8, self.v_at, self.v_len)
            && is_apart(self.f_at, self.f_len, self.v_at, self.v_len)
    }
}

fn ends_before(x: u64, n: u64, y: u64) -> bool
    ensures { result ≡ nat_le (x + n) y }
{
    x <= y && n <= y - x
}

fn is_apart(x: u64, n: u64, y: u64, m: u64) -> bool
    ensures { result ≡ are_apart x n y m }
{
    ends_before(x, n, y) || ends_before(y, m, x)
}

fn is_within(descr: u64, at: u64, len: u64) -> bool
    requires { 0 < len }
    ensures { result ≡ field_fits descr at len }
{
    at % len == 0 && ends_before(at, len, descr)
}
