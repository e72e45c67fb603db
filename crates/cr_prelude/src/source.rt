//! The text of the prelude.

ghost use Rattle.std.specs.Prelude.{◌≡◌};
ghost use Rattle.cr_prelude.specs.declared.source.TheConstants.{TEXT};

/// The prelude: the methods of the built-in classes that are written in the language.
pub const TEXT: &str = "class Object
  def not_nil!
    self
  end
end
class Nil
  def not_nil!
    raise \"Nil assertion failed\"
  end
end
class Int32
  def times
    i = 0
    while i < self
      yield i
      i += 1
    end
    nil
  end
  def upto(last : Int32)
    i = self
    if i <= last
      while true
        yield i
        break if i == last
        i += 1
      end
    end
    nil
  end
  def downto(last : Int32)
    i = self
    if i >= last
      while true
        yield i
        break if i == last
        i -= 1
      end
    end
    nil
  end
end
class Array(T)
  def each
    i = 0
    while i < size
      yield self[i]
      i += 1
    end
    nil
  end
  def each_with_index
    i = 0
    while i < size
      yield self[i], i
      i += 1
    end
    nil
  end
end
class Hash(K, V)
  def each
    list = keys
    i = 0
    while i < list.size
      k = list[i]
      yield k, self[k]
      i += 1
    end
    nil
  end
end
";

const _: () = prove!(TEXT.len() == 928);

/// The text of the prelude. It takes no memory.
pub fn text() -> &'static str
    ensures { result.now ≡ TEXT.now }
{
    TEXT
}
