// Whether a list of ids has an id.
ghost use Rattle.std.specs.Prelude.{◌≡◌};
ghost use Rattle.laws.specs.Elem.{elem};

pub fn listed(ids: &[u64], id: u64) -> bool
    ensures { result ≡ elem id ids.now }
{
    ids.contains(&id)
}
