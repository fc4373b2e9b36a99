//! What the definition of the words means. The functions do nothing: their contracts are the laws.
ghost use Rattle.std.specs.Prelude.{ℕ, ◌≡◌, List, IsTrue};
ghost use Rattle.command_words.specs.Options.{is_block_size, wrong};
ghost use Rattle.command_words.specs.Commands.{words_read};
ghost use Rattle.command_words.specs.Order.{MayChangePlaces};
ghost use Rattle.command_words.specs.Places.{IsFirstWrong};

/// A law: options that stand side by side may change places, so the order of options does not matter.
pub fn options_may_change_places()
    ensures { (command_word : List ℕ) → MayChangePlaces command_word }
{}

/// A law: words that are no form are refused at the first that is wrong. The words before it begin a form, and with it they
/// begin none; or it is one past the last, and the words begin a form but are none.
pub fn first_wrong_word_is_told()
    ensures { (block_size : ℕ) (words : List (List ℕ)) (place : ℕ)
        → IsTrue (is_block_size block_size) → words_read block_size words ≡ wrong place → IsFirstWrong block_size words place }
{}
