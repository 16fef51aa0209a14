// No code: congruences by translations, the words in which inner functions promise them; and the law that ties these to the substitution property.
#![tactic(auto)]
