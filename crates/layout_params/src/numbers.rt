// A layout that is read at run time.

ghost use Rattle.std.specs.Prelude.{◌≡◌, ◌^◌, ◌<◌, MatchOption, IsTrue, false};
ghost use Rattle.layout_params.specs.Sizes.{Sizes, is_legal, flag_limit, value_limit};
ghost use Rattle.layout_params.specs.Views.{sizes_of};

use crate::candidate::Candidate;
use crate::layout::Layout;

/// A legal layout that is made at run time.
#[derive(Clone, Copy, Debug)]
pub struct Numbers {
    sizes: Candidate,
    ghost legal: { IsTrue (is_legal (sizes_of sizes)) },
}

impl Numbers {
    /// The layout of these numbers, in bytes; none where they aren't a legal one.
    pub fn new(
        descr: u64,
        a_at: u64,
        f_at: u64,
        f_len: u64,
        v_at: u64,
        v_len: u64,
    ) -> Option<Numbers>
        ensures { let s : Sizes = record { descr = descr; a_at = a_at; f_at = f_at; f_len = f_len; v_at = v_at; v_len = v_len }
            in MatchOption result (is_legal s ≡ false) (λ n. ⟦<Numbers as Layout>⟧.sizes n ≡ s) }
    {
        let sizes = Candidate {
            descr,
            a_at,
            f_at,
            f_len,
            v_at,
            v_len,
        };
        if sizes.is_legal() {
            Some(Numbers { sizes })
        } else {
            None
        }
    }

    /// The layout of these numbers.
    pub(crate) fn of(sizes: &Candidate) -> Numbers
        requires { IsTrue (is_legal (sizes_of sizes.now)) }
        ensures { ⟦<Numbers as Layout>⟧.sizes result ≡ sizes_of sizes.now }
    {
        Numbers { sizes: *sizes }
    }

    /// The largest F field.
    pub(crate) fn flag_limit(&self) -> u64
        ensures is_limit { result ≡ flag_limit (⟦<Numbers as Layout>⟧.sizes self.now) }
        ensures below { result < 2 ^ 32 }
    {
        match self.sizes.f_len {
            1 => 0xff,
            2 => 0xffff,
            _ => 0xffff_ffff,
        }
    }

    /// The largest V field.
    pub(crate) fn value_limit(&self) -> u64
        ensures { result ≡ value_limit (⟦<Numbers as Layout>⟧.sizes self.now) }
    {
        match self.sizes.v_len {
            2 => 0xffff,
            4 => 0xffff_ffff,
            _ => 0xffff_ffff_ffff,
        }
    }
}

impl Layout for Numbers {
    ghost sizes = { λ n. sizes_of n.sizes };

    ghost legal = { λ n. n.legal };

    fn descr(&self) -> u64 {
        self.sizes.descr
    }

    fn a_at(&self) -> u64 {
        self.sizes.a_at
    }

    fn f_at(&self) -> u64 {
        self.sizes.f_at
    }

    fn f_len(&self) -> u64 {
        self.sizes.f_len
    }

    fn v_at(&self) -> u64 {
        self.sizes.v_at
    }

    fn v_len(&self) -> u64 {
        self.sizes.v_len
    }
}
